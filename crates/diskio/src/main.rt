//! A UEFI disk stack over disk images: runs the script on standard input and writes its report.
#![tactic(auto)]

use image_store::{FileImages, InSource, OutSink};
use stack_run::{end_program, run_plain};
use std::alloc::{Alloc, Global};
use std::env::{self, Env};
use std::io;
use std::process::ExitCode;

// The words after the program's name. The error is want of memory, or a word that is no text.
fn read_words(rt: &(impl Env + Alloc<A = Global>)) -> io::Result<Vec<String>> {
    let mut all = Vec::new(rt.alloc());
    for word in env::args(rt)?.skip(1) {
        all.push(word)?;
    }
    Ok(all)
}

// The words, or none for a word that is no text; nothing for want of memory.
fn words(rt: &(impl Env + Alloc<A = Global>)) -> Option<Vec<String>> {
    match read_words(rt) {
        Ok(words) => Some(words),
        Err(error) => match error.kind() {
            io::ErrorKind::OutOfMemory => None,
            _ => Some(Vec::new(rt.alloc())),
        },
    }
}

fn main(rt: HostRuntime) -> ExitCode {
    let alloc = rt.alloc();
    let mut script = InSource::make(rt.stdin());
    let mut images = FileImages::make(alloc, &rt);
    let mut out = OutSink::make(rt.stdout());
    let status = match words(&rt) {
        Some(words) => {
            Some(run_plain(alloc, words.as_slice(), &mut script, &mut images, &mut out))
        }
        None => None,
    };
    end_program(status, &mut out)
}
