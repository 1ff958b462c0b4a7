// Replays the Rust's recorded answers on one free piece, offers and blocks (recorded/, handed to it as files), and says how many of ours are
// the same. A record is a line of hexadecimal digits, what was asked and then the Rust's answer; recorded/README.md has the fields.
#![tactic(auto)]

mod block_record;
mod offer_record;
mod record;

ghost use Rattle.std.specs.Prelude.{◌≤◌};

use record::decoded;
use std::fs::File;
use std::io;
use std::io::Read;

// The characters of the longest line: two for each of 74 bytes, and a newline.
const LINE: usize = 149;

// The most records of a file that are read.
const MOST: u64 = 1000000;

// What the records of a file ask.
#[derive(Clone, Copy)]
enum Asked {
    Offers,
    Blocks,
}

// The bytes of a record.
fn length(asked: Asked) -> usize
    ensures { result ≤ 74 }
{
    match asked {
        Asked::Offers => 29,
        Asked::Blocks => 74,
    }
}

// Whether our answer is the recorded one; a line that is no record is counted as one that differs.
fn agrees(asked: Asked, line: &[u8; LINE]) -> bool {
    let Some(bytes) = decoded(line, length(asked)) else {
        return false;
    };
    match asked {
        Asked::Offers => offer_record::agrees(bytes),
        Asked::Blocks => block_record::agrees(bytes),
    }
}

// How many records were the same and how many were not.
#[derive(Drop)]
struct Tally {
    same: u64,
    differ: u64,
}

// Reads until the line is full or the file ends, and says how many bytes came.
fn read_full(file: &mut File, line: &mut [u8]) -> io::Result<usize> {
    let mut done: usize = 0;
    // no index: a read says how far it came
    while done < line.len() {
        let n = file.read(&mut line[done..])?;
        if n == 0 {
            break;
        }
        done += n;
    }
    Ok(done)
}

fn replay(file: &mut File, asked: Asked) -> io::Result<Tally> {
    let bytes = length(asked);
    let mut tally = Tally { same: 0, differ: 0 };
    for _read in 0..MOST {
        let mut line = [0u8; LINE];
        let n = read_full(file, &mut line[..2 * bytes + 1])?;
        if n == 0 {
            break;
        }
        if agrees(asked, &line) {
            tally.same += 1;
        } else {
            tally.differ += 1;
        }
    }
    Ok(tally)
}

fn report(rt: &HostRuntime, tally: Tally, what: &str) -> io::Result<()> {
    let Tally { same, differ } = tally;
    println!(rt; "{same}{what} are the Rust's, {differ} differ")
}

// A file that can't be opened or read ends it, and so does a line that can't be written.
fn main(rt: HostRuntime) -> io::Result<()> {
    let mut offers = File::open(&rt, "offers.txt")?;
    report(&rt, replay(&mut offers, Asked::Offers)?, " offers")?;
    let mut blocks = File::open(&rt, "blocks.txt")?;
    report(&rt, replay(&mut blocks, Asked::Blocks)?, " blocks")
}
