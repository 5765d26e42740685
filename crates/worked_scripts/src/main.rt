//! What the gate compares with expectations made apart from it: the scripts of the file `scripts` are run over `sim`, the
//! table of scripts on standard input is parsed, and cuts and layouts of arrays are printed at their edges. With the name
//! of a file it parses that file alone, and with `--arrays` it takes the times of layouts and slices.
#![tactic(auto)]

mod arrays;
mod edges;
mod escape;
mod expression;
mod scripts;
mod statement;
mod table;
mod timed;

use std::env;

fn main(rt: HostRuntime) -> anyhow::Result<()> {
    let mut words = env::args(&rt)?;
    let _program = words.next();
    if let Some(word) = words.next() {
        if word.as_str() == "--arrays" {
            return arrays::print_times(&rt);
        }
        return table::parse_file(&rt, word.as_str());
    }
    scripts::run_all(&rt)?;
    table::parse_all(&rt)?;
    arrays::print_all(&rt)
}
