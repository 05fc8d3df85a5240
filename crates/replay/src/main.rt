// Replays a recorded log, from standard input or from a file, and prints a line for each record as
// soon as the record is there.
#![tactic(auto)]

ghost use Rattle.std.specs.Prelude.{◌≡◌, ◌+◌, ◌*◌, ◌≤◌, length, IfOk};
ghost use Rattle.bus_log.specs.Log.{record_size};

use bus_log::{MAX_RECORDS, RECORD_SIZE};
use mcp2515::Chip;
use std::env::{Env, FillError};
use std::fs::File;
use std::io;
use std::io::{Read, Write};
use std::process::ExitCode;
use thiserror::Error;

// The most bytes that are read at once. The text of so many records fits the output buffer.
const STRETCH: usize = 2048 * RECORD_SIZE;

// A log with one record too many, read a byte at a time.
const MOST_READS: usize = (MAX_RECORDS + 1) * RECORD_SIZE + 1;

// The most bytes of a word of the command line, and the system's number for one that is longer.
const WORD_SIZE: usize = 4096;

const ENAMETOOLONG: i32 = 36;

// What ended a replay early.
#[derive(Debug, Drop, Error)]
enum Failure {
    #[error("argument: {0}")]
    Argument(io::Error),
    #[error("reading the log: {0}")]
    Log(io::Error),
    #[error("standard output: {0}")]
    Output(io::Error),
}

// The records run so far, the chip that they left, and the bytes of a record that is not whole yet.
#[derive(Clone, Copy)]
struct Progress {
    chip: Chip,
    number: u32,
    kept: usize,
}

fn stretch_buffer() -> [u8; STRETCH]
    ensures { 2048 * record_size ≡ length result }
{
    [0; STRETCH]
}

// Renders a part of the log and writes its text at once. Nothing follows a record that ends the log.
fn replay_part<W: Write>(
    progress: Progress,
    part: &[u8],
    text: &mut [u8],
    output: &mut W,
) -> Result<Option<Progress>, Failure> {
    let rendered = log_text::render_stretch(progress.chip, progress.number, part, text);
    let len = rendered.len;
    if len > text.len() {
        return Err(Failure::Output(io::Error::from(io::ErrorKind::Other)));
    }
    output.write_all(&text[..len]).map_err(Failure::Output)?;
    if rendered.refusal > 0 {
        return Ok(None);
    }
    Ok(Some(Progress {
        chip: rendered.chip,
        number: rendered.number,
        kept: 0,
    }))
}

// Moves the start of a record that is not whole yet to the front.
fn keep(input: &mut [u8], from: usize, size: usize)
    requires { from + size ≤ length input.old }
{
    input.copy_within(from..from + size, 0);
}

// Renders the records that are whole in the first size bytes, and keeps the rest.
fn replay_whole<W: Write>(
    progress: Progress,
    input: &mut [u8],
    size: usize,
    text: &mut [u8],
    output: &mut W,
) -> Result<Option<Progress>, Failure>
    requires { size ≤ length input.old }
{
    let left = size % RECORD_SIZE;
    let whole = size - left;
    let Some(next) = replay_part(progress, &input[..whole], text, output)? else {
        return Ok(None);
    };
    keep(input, whole, left);
    Ok(Some(Progress { kept: left, ..next }))
}

fn read_behind<R: Read>(log: &mut R, input: &mut [u8], kept: usize) -> io::Result<usize>
    requires { kept ≤ length input.old }
    ensures { IfOk result (λ n. kept + n ≤ length input.new) }
{
    log.read(&mut input[kept..])
}

// Reads once, behind the bytes that are kept. Where the log ends there, they are a short record.
fn replay_read<R: Read, W: Write>(
    log: &mut R,
    progress: Progress,
    input: &mut [u8],
    text: &mut [u8],
    output: &mut W,
) -> Result<Option<Progress>, Failure> {
    let kept = progress.kept;
    if kept >= input.len() {
        return Ok(None);
    }
    let got = read_behind(log, input, kept).map_err(Failure::Log)?;
    if got == 0 {
        replay_part(progress, &input[..kept], text, output)?;
        return Ok(None);
    }
    replay_whole(progress, input, kept + got, text, output)
}

fn replay_log<R: Read, W: Write>(log: &mut R, output: &mut W) -> Result<(), Failure> {
    let mut input = stretch_buffer();
    let mut text = [0u8; 65536];
    let mut progress = Progress {
        chip: mcp2515::power_on(),
        number: 0,
        kept: 0,
    };
    for _ in 0..MOST_READS {
        match replay_read(log, progress, &mut input, &mut text, output)? {
            Some(next) => progress = next,
            None => break,
        }
    }
    Ok(())
}

// Opens the file and tries to read nothing, which a directory refuses.
fn open_log(rt: &HostRuntime, name: &str) -> io::Result<File> {
    let mut file = File::open(rt, name)?;
    file.read(&mut [0u8; 0])?;
    Ok(file)
}

const USAGE: &str = "usage: replay [--help] [--] [LOG]";

fn show_help(rt: &HostRuntime) -> Result<(), Failure> {
    println!(rt; "{USAGE}").map_err(Failure::Output)?;
    println!(rt;
        "Replays LOG, or standard input where LOG is missing or -, from power-on."
    ).map_err(Failure::Output)?;
    println!(rt; "Prints a line for each record: its number from 1, refusal, answer.").map_err(
        Failure::Output,
    )
}

// The answer to words that are wrong, which end with status 0.
fn show_usage(rt: &HostRuntime) -> ExitCode {
    let _ = eprintln!(rt; "{USAGE}");
    ExitCode::SUCCESS
}

fn replay_stdin(rt: &HostRuntime) -> ExitCode {
    ended(rt, replay_log(&mut rt.stdin(), &mut rt.stdout()))
}

// Says what ended a replay early, if anything did. The status of the program.
fn ended(rt: &HostRuntime, outcome: Result<(), Failure>) -> ExitCode {
    match outcome {
        Ok(()) => ExitCode::SUCCESS,
        Err(failure) => {
            let _ = eprintln!(rt; "{failure}");
            ExitCode::FAILURE
        }
    }
}

// A word of the command line by its number, read into room; none where there are not so many.
fn word_at<'a>(
    rt: &HostRuntime,
    number: usize,
    room: &'a mut [u8],
) -> Result<Option<&'a [u8]>, Failure> {
    match rt.arg(number, room) {
        Ok(size) => Ok(Some(&room[..size])),
        Err(FillError::NotPresent) => Ok(None),
        Err(FillError::TooLong) => {
            Err(Failure::Argument(io::Error::from_raw_os_error(ENAMETOOLONG)))
        }
    }
}

fn has_word(rt: &HostRuntime, number: usize) -> bool {
    !matches!(rt.arg(number, &mut [0u8; 0]), Err(FillError::NotPresent))
}

fn replay_file(rt: &HostRuntime, name: &str) -> ExitCode {
    match open_log(rt, name) {
        Ok(mut file) => ended(rt, replay_log(&mut file, &mut rt.stdout())),
        Err(error) => {
            let _ = eprintln!(rt; "{name}: {error}");
            ExitCode::FAILURE
        }
    }
}

// A dash alone is standard input.
fn replay_named(rt: &HostRuntime, word: &[u8]) -> ExitCode {
    if word == b"-".as_slice() {
        return replay_stdin(rt);
    }
    match std::str::from_utf8(word) {
        Ok(name) => replay_file(rt, name),
        Err(_) => ended(
            rt,
            Err(Failure::Argument(io::Error::from(io::ErrorKind::InvalidData))),
        ),
    }
}

// What follows the two dashes that end the options.
fn replay_operand(rt: &HostRuntime) -> ExitCode {
    if has_word(rt, 3) {
        return show_usage(rt);
    }
    let mut room = [0u8; WORD_SIZE];
    match word_at(rt, 2, &mut room) {
        Ok(None) => replay_stdin(rt),
        Ok(Some(word)) => replay_named(rt, word),
        Err(failure) => ended(rt, Err(failure)),
    }
}

fn is_option(word: &[u8]) -> bool {
    matches!(word, [b'-', _, ..])
}

fn replay_by(rt: &HostRuntime, first: &[u8]) -> ExitCode {
    if first == b"--help".as_slice() {
        return ended(rt, show_help(rt));
    }
    if first == b"--".as_slice() {
        return replay_operand(rt);
    }
    if is_option(first) || has_word(rt, 2) {
        return show_usage(rt);
    }
    replay_named(rt, first)
}

fn main(rt: HostRuntime) -> ExitCode {
    let mut room = [0u8; WORD_SIZE];
    match word_at(&rt, 1, &mut room) {
        Ok(None) => replay_stdin(&rt),
        Ok(Some(first)) => replay_by(&rt, first),
        Err(failure) => ended(&rt, Err(failure)),
    }
}
