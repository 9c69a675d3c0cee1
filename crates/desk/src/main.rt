// A line of standard input to its answer on standard output, or the words after the program's name to theirs.
// What matters is in `wording`: here lines are cut, files read and answers written. Every function is safe and ends; no more is claimed.
#![tactic(auto)]

mod files;
mod input;
mod output;
mod tally;
mod words;

use input::answer_input;
use output::complain;
use words::{answer_words, arg_count};

fn main(rt: HostRuntime) {
    let count = arg_count(&rt);
    let written = if 1 < count {
        answer_words(&rt, count)
    } else {
        answer_input(&rt)
    };
    if written.is_err() {
        complain(&rt, "desk: the output cannot be written");
    }
}
