// The lines of an input, taken out of a chunk that the caller lends. A line may lie in several chunks.
ghost use Rattle.std.specs.Prelude.{[], ◌≤◌, length, take};
ghost use Rattle.input.specs.Ready.{between, Ready, Takes, Reads};
ghost use Rattle.input.specs.Only.{OnlyHeld};

use std::io::{Read, Stdin};

// What is left of the chunk lies from `at` to `end`; `have` bytes of the line are kept.
#[derive(Clone, Copy)]
pub struct Input {
    pub at: usize,
    pub end: usize,
    pub have: usize,
    // the line is whole
    pub whole: bool,
    // nothing more is to come
    pub ended: bool,
}

// Goes on with a line of which `have` bytes are kept, in what is left of the chunk.
pub fn take_part(chunk: &[u8], line: &mut [u8], at: usize, end: usize, have: usize) -> Input
    requires { (at ≤ end) × (end ≤ length chunk.now) × (have ≤ length line.old) }
    ensures { Takes chunk.now line.old line.new at end have result }
{
    let left = &chunk[at..end];
    let stop = lines::line_end(left, 0);
    let kept = lines::keep(line, have, &left[..stop]);
    if stop == left.len() {
        return Input {
            at: end,
            end,
            have: kept,
            whole: false,
            ended: false,
        };
    }
    let next = at + stop + 1;
    Input {
        at: next,
        end,
        have: kept,
        whole: true,
        ended: false,
    }
}

// Reads once, and says how many bytes came: 0 where the input has ended, and where it cannot be read.
fn read_some(mut stdin: Stdin, chunk: &mut [u8]) -> usize
    ensures { result ≤ length chunk.new }
{
    stdin.read(chunk).unwrap_or(0)
}

// Goes on with a line, after a read where nothing is left of the chunk. The last line may lack its line feed.
fn read_part(stdin: Stdin, chunk: &mut [u8], line: &mut [u8], p: Input) -> Input
    requires { Ready chunk.old line.old p }
    ensures { Reads (take p.have line.old) (between p.at p.end chunk.old) chunk.new line.new result }
{
    let have = p.have;
    if p.at < p.end {
        return take_part(chunk, line, p.at, p.end, have);
    }
    let n = read_some(stdin, chunk);
    if n == 0 {
        return Input {
            at: 0,
            end: 0,
            have,
            whole: 0 < have,
            ended: true,
        };
    }
    take_part(chunk, line, 0, n, have)
}

// Reads the next line. Nothing says that it ends, so the turns are counted, up to a number that no run reaches.
pub fn read_line(stdin: Stdin, chunk: &mut [u8], line: &mut [u8], at: usize, end: usize) -> Input
    requires { (at ≤ end) × (end ≤ length chunk.old) }
    ensures { Reads [] (between at end chunk.old) chunk.new line.new result }
{
    let mut p = Input {
        at,
        end,
        have: 0,
        whole: false,
        ended: false,
    };
    for _ in 0..u64::MAX {
        if p.whole {
            return p;
        }
        if p.ended {
            return p;
        }
        p = read_part(stdin, chunk, line, p);
    }
    p
}

// The one line of an input: whether there is just one, and how many bytes of it are kept.
#[derive(Clone, Copy)]
pub struct Only {
    pub one: bool,
    pub have: usize,
}

// Reads the one line of what is left of the chunk and of standard input. Of a second line no more is kept than tells that there is one.
pub fn only_line(stdin: Stdin, chunk: &mut [u8], line: &mut [u8], at: usize, end: usize) -> Only
    requires { (at ≤ end) × (end ≤ length chunk.old) × (1 ≤ length line.old) }
    ensures { OnlyHeld (between at end chunk.old) line.new result }
{
    let first = read_line(stdin, chunk, line, at, end);
    let have = first.have;
    if !first.whole {
        return Only {
            one: false,
            have: 0,
        };
    }
    if first.ended {
        return Only { one: true, have };
    }
    let mut more = [0; 1];
    let second = read_line(stdin, chunk, &mut more, first.at, first.end);
    if second.whole {
        return Only {
            one: false,
            have: 0,
        };
    }
    Only {
        one: second.ended,
        have,
    }
}
