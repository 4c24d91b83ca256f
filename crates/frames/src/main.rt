// Reads a dump of frames in hex from standard input and prints what each line is.
#![tactic(auto)]

use explain::{answer_line, line_end};
use std::io::Read;

// Prints the answer to each line of the dump, in their order. Lines are cut by `line_end`, whose contract says where one
// ends; of `split` no contract here would say it.
fn answer_dump(rt: &HostRuntime, dump: &[u8]) -> anyhow::Result<()> {
    let mut rest = dump;
    while !rest.is_empty() {
        let (line, after) = rest.split_at(line_end(rest));
        if let Some(text) = answer_line(rt.alloc(), line)? {
            println!(rt; "{text}")?;
        }
        rest = after.get(1..).unwrap_or(&[]);
    }
    Ok(())
}

fn run(rt: &HostRuntime) -> anyhow::Result<()> {
    let mut dump = Vec::new(rt.alloc());
    rt.stdin().read_to_end(&mut dump)?;
    answer_dump(rt, dump.as_slice())
}

fn main(rt: HostRuntime) -> anyhow::Result<()> {
    run(&rt)
}
