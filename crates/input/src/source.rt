// Standard input, and a chunk of it.
ghost use Rattle.std.specs.Prelude.{◌≤◌, length};

use std::io::Stdin;

#[derive(Clone, Copy)]
pub struct Lines {
    pub stdin: Stdin,
    // what is left of the chunk lies from `at` to `end`
    pub chunk: [u8; 65536],
    pub at: usize,
    pub end: usize,
    // nothing more is to come
    pub ended: bool,
    ghost in_order: { at ≤ end },
    ghost within: { end ≤ length chunk },
}
