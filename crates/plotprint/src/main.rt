// Runs the rules of `rules.txt` over the register of `register.bin`, and prints the page (`printed_page` of `print_run`).
#![tactic(auto)]

ghost use Rattle.io.specs.Counts.{IsPrefixLen};

use print_run;
use std::fs::File;
use std::io;
use std::io::{Read, Write};
use std::rt::Files;

// The start of a file, as much of it as fits; nothing where it cannot be opened.
fn read_file(rt: &impl Files, name: &str, into: &mut [u8]) -> usize
    ensures { IsPrefixLen result into.new }
{
    let Ok(mut file) = File::open(rt, name) else {
        return 0;
    };
    let mut count = 0;
    while count < into.len() {
        match file.read(&mut into[count..]) {
            Ok(0) | Err(_) => break,
            Ok(more) => count += more,
        }
    }
    count
}

fn main(rt: HostRuntime) -> io::Result<()> {
    // One place more than is taken of each file, so that a longer one shows.
    let mut register = [0u8; 513];
    let register_length = read_file(&rt, "register.bin", &mut register);
    let mut rules = [0u8; 8193];
    let rules_length = read_file(&rt, "rules.txt", &mut rules);
    let mut page = [0u8; 90112];
    let length = print_run::page_of(
        &register[..register_length],
        &rules[..rules_length],
        &mut page,
    );
    io::writer(&rt).write_all(&page[..length])
}
