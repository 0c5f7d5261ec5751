// Reads schema.json, then one message per line from standard input, and shows each as a person can read it: the answer in words, and the records of an accepted message as a tree.
#![tactic(auto)]

use console::answers::Style;
use console::run::run;

fn main(rt: HostRuntime) {
    let mut input = rt.stdin();
    run(&rt, &mut input, Style::Tree);
}
