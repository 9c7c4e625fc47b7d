// The program `tables`: prints the byte substitution of 8.1, the two tables of SNOW 2.0 and the four of KCipher-2, worked out from their rules.
// Where standard output takes no bytes, it says so on standard error.
#![tactic(auto)]

use tables_text::SIZE;

fn main(rt: HostRuntime) {
    let mut out = [0u8; SIZE];
    tables_text::tables(&mut out);
    files::print(rt, b"tables: standard output", &out);
}
