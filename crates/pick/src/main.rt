// The program: reads old.csv and new.csv, and prints the condition of the two charts, or a refusal. It opens, reads and
// writes; what it prints is made by the crate report, in portions that together are `printed` of that crate's specs.
#![tactic(auto)]

ghost use Rattle.std.specs.Prelude.{◌≡◌, ◌^◌, ◌<◌};
ghost use Rattle.io.specs.Counts.{IsPrefixLen};
ghost use Rattle.text.specs.Texts.{read_into};
ghost use Rattle.builder.specs.inner.Small.{Small};
ghost use Rattle.report.specs.Printed.{in_new};
ghost use Rattle.pick.specs.Both.{BothAs};
ghost use Rattle.pick.specs.inner.Small.{Few};

use base::Refusal;
use builder::build;
use chart::charts::{Heads, both_heads};
use condition::Summary;
use records::{Marks, Targets};
use std::fs::File;
use std::io;
use std::io::{Print, Write};
use std::rt::Files;

// What is read of both files: the heads, and the row counts of the old and of the new chart. The rows stand at the
// front of the tables.
#[derive(Clone, Copy)]
pub struct Both {
    pub heads: Heads,
    pub old_rows: usize,
    pub new_rows: usize,
}

// Reads to the end of the file, or as much as the text holds, and answers the count of bytes: none where a read fails.
fn fill<R: io::Read>(file: &mut R, text: &mut [u8]) -> usize
    ensures { IsPrefixLen result text.new }
{
    let mut at = 0;
    while at < text.len() {
        match file.read(&mut text[at..]) {
            Err(_) => return 0,
            Ok(0) => return at,
            Ok(n) => at += n,
        }
    }
    at
}

// The bytes of a file, at the front of the text, and their count: a file that can't be read counts as one without
// bytes.
fn load<R: Files>(rt: &R, path: &str, text: &mut [u8]) -> usize
    ensures { IsPrefixLen result text.new }
{
    match File::open(rt, path) {
        Err(_) => 0,
        Ok(mut file) => fill(&mut file, text),
    }
}

// A refusal of new.csv: the reader tells it of the sole chart.
fn in_new(r: Refusal) -> Refusal
    ensures { result ≡ in_new r }
{
    Refusal { chart: 1, ..r }
}

// The charts of two texts, the old one first: their rows go to the front of the tables, which have 768 entries each. A
// refusal leaves the table of the chart that is refused as it was, and ends the program. The program names edition 1.
fn read_both(
    old_text: &[u8],
    new_text: &[u8],
    old: &mut [u32],
    new: &mut [u32],
) -> Result<Both, Refusal>
    ensures is { BothAs (read_into old_text.now old.old)
        (read_into new_text.now new.old) result
        old.old old.new new.old new.new }
    ensures few { Few result }
{
    let one = text::read(old_text, old)?;
    let other = text::read(new_text, new).map_err(in_new)?;
    Ok(Both {
        heads: both_heads(1, one.head, other.head),
        old_rows: one.rows,
        new_rows: other.rows,
    })
}

// Both charts. At most 16,384 bytes of a file are read: more do not change what is printed.
fn charts<R: Files>(rt: &R, old: &mut [u32], new: &mut [u32]) -> Result<Both, Refusal>
    ensures { Few result }
{
    let mut old_text = [0u8; 16384];
    let mut new_text = [0u8; 16384];
    let m = load(rt, "old.csv", &mut old_text);
    let n = load(rt, "new.csv", &mut new_text);
    read_both(&old_text[..m], &new_text[..n], old, new)
}

// Writes the bytes to standard output, and answers whether it took them all. After a write that fails or takes nothing
// no other is tried, here or by a caller, so that what was taken is a beginning of what is printed. No copy is made of
// the bytes, so that what is live at once stays small.
fn put<P: Print>(rt: &P, bytes: &[u8]) -> bool {
    let mut out = io::writer(rt);
    let mut at = 0;
    while at < bytes.len() {
        match out.write(&bytes[at..]) {
            Err(_) | Ok(0) => return false,
            Ok(n) => at += n,
        }
    }
    true
}

fn refuse<P: Print>(rt: &P, r: Refusal)
    requires { r.position < 2 ^ 32 }
{
    let mut bytes = [0u8; 1024];
    let n = report::refusal(r.number, r.chart, r.position as u32, &mut bytes);
    put(rt, &bytes[..n]);
}

// The transitions, portion after portion, up to the first that standard output does not take whole.
fn transitions<P: Print>(rt: &P, rows: &[u32], marks: &Marks, targets: &Targets) {
    let mut bytes = [0u8; 1024];
    let mut pair = 0;
    while pair < 4096 {
        let extent = report::portion(rows, marks, targets, pair, &mut bytes);
        let n = extent.count;
        if !put(rt, &bytes[..n]) {
            return;
        }
        pair = extent.next;
    }
}

// The first record of a condition. Answers whether standard output took it whole.
fn head<P: Print>(rt: &P, s: Summary) -> bool
    requires { Small s }
{
    let mut bytes = [0u8; 1024];
    let n = report::summary(
        s.start as u32,
        s.opened as u32,
        s.kept as u32,
        s.covered as u32,
        &mut bytes,
    );
    put(rt, &bytes[..n])
}

// The condition of two charts, or as much of its beginning as standard output takes.
fn show<P: Print>(rt: &P, heads: Heads, old_rows: &[u32], new_rows: &[u32]) {
    let mut marks = [0u8; 4160];
    let mut targets = [0u16; 8192];
    let mut sets = [0u64; 4096];
    let mut waiting = [0u8; 4096];
    match build(
        heads,
        old_rows,
        new_rows,
        &mut marks,
        &mut targets,
        &mut sets,
        &mut waiting,
    ) {
        Err(r) => refuse(rt, r),
        Ok(s) => {
            if head(rt, s) {
                transitions(rt, new_rows, &marks, &targets);
            }
        }
    }
}

fn main(rt: HostRuntime) {
    let mut old = [0u32; 768];
    let mut new = [0u32; 768];
    match charts(&rt, &mut old, &mut new) {
        Err(r) => refuse(&rt, r),
        Ok(both) => {
            let m = 6 * both.old_rows;
            let n = 6 * both.new_rows;
            show(&rt, both.heads, &old[..m], &new[..n]);
        }
    }
}
