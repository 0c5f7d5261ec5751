// Reads schema.json, then one message per line from standard input, and prints an answer line for each.
#![tactic(auto)]

use console::answers::Style;
use console::run::run;

fn main(rt: HostRuntime) {
    let mut input = rt.stdin();
    run(&rt, &mut input, Style::Numbers);
}
