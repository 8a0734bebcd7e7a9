// The comparison's program: what ours answers to the records or direct calls on standard input, in compare's lines.
//
//     beside [--states] [--fold]    keyreport's lines; --states: the held state after each; --fold: the unchecked fold
//     beside --calls                direct calls, as compare encodes them
//     beside --mixed                one input for all of these: a record with mark 0 says how the following ones are meant
#![tactic(auto)]

mod calls;
mod read;
mod records;
mod text;
mod window;

use std::env::Env;
use std::io;

// Argument i is -- and a word that begins with this letter.
fn is_flag(rt: &impl Env, i: usize, letter: u8) -> bool {
    let mut word = [0u8; 16];
    rt.arg(i, &mut word)
        .is_ok_and(|n| 3 <= n && word[2] == letter)
}

fn asked(rt: &impl Env, letter: u8) -> bool {
    is_flag(rt, 1, letter) || is_flag(rt, 2, letter)
}

fn main(rt: HostRuntime) -> io::Result<()> {
    let states = asked(&rt, b's');
    let fold = asked(&rt, b'f');
    let mixed = asked(&rt, b'm');
    // a mixed input begins with a record that says what follows; before it there is nothing to end
    let calls = mixed || asked(&rt, b'c');
    let mode = records::Mode {
        states,
        fold,
        calls,
        mixed,
    };
    let mut input = rt.stdin();
    let mut output = rt.stdout();
    window::run(&mut input, &mut output, mode)
}
