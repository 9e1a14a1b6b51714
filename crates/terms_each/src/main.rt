// Takes each line of standard input as a formula, and prints of each what `terms` prints. It is for stored runs: of a longer input it takes the first 65,536
// bytes only, and the last line as far as it goes.
#![tactic(auto)]

ghost use Rattle.std.specs.Prelude.{◌≡◌, ◌≤◌, length, IfOk, IfErr};

use std::io;
use std::io::Read;

// So much of the input is taken.
const MOST_INPUT: usize = 65536;

fn print_terms(rt: &impl Print, formula: &[u8]) -> io::Result<()> {
    let mut lines = [0u8; listing::MOST_LINES];
    // There is room for any lines, so it is never refused.
    let end = listing::list(formula, &mut lines).unwrap();
    rt.write_all(&lines[..end])
}

// Reads until the area is full or the input ends, and answers how many bytes stand in its first places.
// It stands in both programs: as a library's function it would need a contract that leaves one outcome, and what an input gives is not said.
fn read_full(input: &mut impl Read, area: &mut [u8]) -> io::Result<usize>
    ensures ok { IfOk result (λ n. n ≤ length area.new) }
    ensures err { IfErr result (λ e. length area.new ≡ length area.old) }
{
    let mut done = 0;
    while done < area.len() {
        let more = input.read(&mut area[done..])?;
        if more == 0 {
            break;
        }
        done += more;
    }
    Ok(done)
}

fn main(rt: HostRuntime) -> io::Result<()> {
    let mut input = [0u8; MOST_INPUT];
    let length = read_full(&mut rt.stdin(), &mut input)?;
    for line in input[..length].split_inclusive(|b| *b == b'\n') {
        print_terms(&rt, line)?;
    }
    Ok(())
}
