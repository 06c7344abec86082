// How many steps the argument asks for.
use console::arguments::arg;
use console::decimal::count;
use std::rt::Env;

// K, a whole number below 2^32; an argument that is missing or longer than the text spells nothing.
pub fn steps_asked(rt: &impl Env) -> Option<u64> {
    let mut text = [0u8; 64];
    let n = arg(rt, 1, &mut text);
    count(&text[..n], 4294967295)
}
