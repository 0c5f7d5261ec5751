// Arrays and objects as one: the brackets around them and the node of each.
ghost use Rattle.std.specs.Prelude.{◌≡◌};
ghost use Rattle.text.specs.Containers.{OpeningAt, closing, container_node};

use tokens::node;

// What brackets hold: values, or members.
#[derive(Clone, Copy)]
pub enum Container {
    Array,
    Object,
}

impl Container {
    // The bracket that closes it.
    pub fn closing(self) -> u8
        ensures { result ≡ closing self }
    {
        match self {
            Container::Array => b']',
            Container::Object => b'}',
        }
    }

    // The kind of its node.
    pub fn node(self) -> u32
        ensures { result ≡ container_node self }
    {
        match self {
            Container::Array => node::ARRAY,
            Container::Object => node::OBJECT,
        }
    }
}

// What opens at `i`, if a bracket stands there that does.
pub fn opening_at(s: &[u8], i: usize) -> Option<Container>
    ensures { OpeningAt s.now i result }
{
    if s.len() <= i {
        return None;
    }
    match s[i] {
        b'[' => Some(Container::Array),
        b'{' => Some(Container::Object),
        _ => None,
    }
}
