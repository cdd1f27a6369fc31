// The command: `command strip LIST` writes the block on standard input without the Authentication-Results fields that speak in our own name
// or in none; `command log LIST` does the same, and says on standard error first which fields go; `command report LIST` writes what each Authentication-Results field of it says, and `command explain LIST` the same in words. LIST is a file with our own
// identifiers, one to a line; what is noticed of it is said on standard error before the last line. `command check LIST` writes how its entries are compared and what is
// noticed of them. `command judge VERDICTS` writes what the ARC chain of the block says by VERDICTS, one digit from 0 to 3 for each set from the first: 2 if its
// seal verified, plus 1 if its signature did. `command write` writes the body of a field of our own from the report lines on standard input.
//
// Each is reading, one call (`command_subcommands`) and writing what it made. All reading and writing is here and in `command_files`; what is written, and how the
// command ends by whether it went, is said by contracts (command_output_rules). A body is written as it is, with no
// name before it and no CRLF after it. A refusal writes nothing to standard output. One line on standard error says how
// it ended (`command_message`): with the numbers of 01 and 02, or 64 for wrong usage, 66 for a list that can't be opened or read, 70 for a failure
// of the program, 74 for an input that can't be read, or not whole, or an output or a log that can't be written; 0 only where all of the output has been
// written. `bin/orbendash` takes the exit status from that line and takes its absence for a failure, so nothing that goes wrong on the way can look like success.
#![tactic(auto)]

ghost use Rattle.command_files.specs.Transfers.{Taken};

use command_files::Incomplete;
use command_output_rules::Made;
use command_rules::{Asked, Ending};
use std::fs::File;

// Writes the last line, in one call; `list` is our own list. Where that fails there is nothing left to tell it by: the line is missing.
fn end(rt: &HostRuntime, ending: Ending, list: &[u8]) {
    let mut line = command_buffers::line();
    let n = command_message::put_ending(ending, list, &mut line, 0);
    let _ = command_files::write_whole(&mut rt.stderr(), text_parts::part(&line, 0, n));
}

// Writes to standard error what is noticed of our own list. Where it can't be written the command goes on: it is a help, and no answer.
fn tell_notes(rt: &HostRuntime, list: &[u8]) {
    let mut notes = command_buffers::list();
    let n = command_list::put_notes(list, &mut notes, 0);
    let _ = command_files::write_whole(&mut rt.stderr(), text_parts::part(&notes, 0, n));
}

// Writes the output, which stands at the front of this buffer, and answers how the command ends.
fn sent(rt: &HostRuntime, made: Made, out: &[u8]) -> Ending {
    let went = command_files::write_whole(&mut rt.stdout(), text_parts::part(out, 0, made.written));
    command_ending::ending_after(made, went.is_ok())
}

// Makes the output of a block by our own list in this buffer, and writes it, what is noticed of the list, and the last line.
fn answer<F: FnOnce(&[u8], &[u8], &mut [u8]) -> Made>(
    rt: &HostRuntime,
    block: &[u8],
    list: &[u8],
    out: &mut [u8],
    make: F,
)
    requires { F.IsAlwaysCallable make }
{
    let made = make(block, list, out);
    let ending = sent(rt, made, out);
    tell_notes(rt, list);
    end(rt, ending, list);
}

// Each with a buffer of its own.
fn strip(rt: &HostRuntime, block: &[u8], list: &[u8]) {
    let mut out = command_buffers::block();
    answer(rt, block, list, &mut out, command_subcommands::strip_block);
}

fn report(rt: &HostRuntime, block: &[u8], list: &[u8]) {
    let mut out = command_buffers::reports();
    answer(rt, block, list, &mut out, command_subcommands::report_block);
}

fn explain(rt: &HostRuntime, block: &[u8], list: &[u8]) {
    let mut out = command_buffers::explained();
    answer(
        rt,
        block,
        list,
        &mut out,
        command_subcommands::explain_block,
    );
}

// Writes to standard error which fields go.
fn tell_log(rt: &HostRuntime, block: &[u8], list: &[u8]) -> Result<(), Incomplete> {
    let mut log = command_buffers::reports();
    let n = command_log::put_log(block, list, &mut log);
    command_files::write_whole(&mut rt.stderr(), text_parts::part(&log, 0, n))
}

// Strips once the fields that go have been logged. Who asks for a log must lose no field without one: where it can't be written whole, no output is.
fn strip_logged(rt: &HostRuntime, block: &[u8], list: &[u8]) {
    match tell_log(rt, block, list) {
        Ok(()) => strip(rt, block, list),
        Err(Incomplete) => end(rt, Ending::Unwritten, list),
    }
}

// Reads standard input to its end, and returns how many bytes stand at the front of the buffer.
fn read_input(rt: &HostRuntime, buf: &mut [u8]) -> Result<usize, Ending>
    ensures { Taken result buf.new }
{
    command_files::read_whole(&mut rt.stdin(), buf).map_err(|_| Ending::InputUnread)
}

// Opens the list that the second argument names. It stays open until the command has ended.
fn open_list(rt: &HostRuntime) -> Result<File, Ending> {
    let mut path = command_buffers::word();
    let n = command_files::argument(rt, 2, &mut path);
    command_files::open(rt, &path[..n]).ok_or(Ending::ListClosed)
}

// Reads the list to its end, and returns how many bytes stand at the front of the buffer.
fn read_list(list_file: &mut File, buf: &mut [u8]) -> Result<usize, Ending>
    ensures { Taken result buf.new }
{
    command_files::read_whole(list_file, buf).map_err(|_| Ending::ListUnread)
}

// Reads the list and the block, and does with them what is asked. This, `check`, `judge` and `write` are kept out of `main`, so that a run pays for its own
// buffers alone: what a function has on the stack is touched as it starts.
#[inline(never)]
fn with_block<F: FnOnce(&HostRuntime, &[u8], &[u8])>(rt: &HostRuntime, run: F) -> Result<(), Ending>
    requires { F.IsAlwaysCallable run }
{
    let mut list_file = open_list(rt)?;
    let mut list = command_buffers::list();
    let m = read_list(&mut list_file, &mut list)?;
    let mut block = command_buffers::block();
    let n = read_input(rt, &mut block)?;
    run(rt, &block[..n], &list[..m]);
    Ok(())
}

// Reads the list, and says how it is compared and what is noticed of it. Nothing else is read.
#[inline(never)]
fn check(rt: &HostRuntime) -> Result<(), Ending> {
    let mut list_file = open_list(rt)?;
    let mut list = command_buffers::list();
    let m = read_list(&mut list_file, &mut list)?;
    let mut out = command_buffers::reports();
    let made = command_subcommands::check_list(&list[..m], &mut out);
    let ending = sent(rt, made, &out);
    end(rt, ending, &list[..m]);
    Ok(())
}

// Reads the block, and judges it by the verdicts that the second argument says.
#[inline(never)]
fn judge(rt: &HostRuntime) -> Result<(), Ending> {
    let mut word = command_buffers::word();
    let m = command_files::argument(rt, 2, &mut word);
    let mut block = command_buffers::block();
    let n = read_input(rt, &mut block)?;
    let mut out = command_buffers::judgement();
    let made = command_subcommands::judge_block(&block[..n], &mut word[..m], &mut out);
    let ending = sent(rt, made, &out);
    end(rt, ending, b"");
    Ok(())
}

// Reads report lines, and writes their body where there are no more of them than were read.
#[inline(never)]
fn write(rt: &HostRuntime) -> Result<(), Ending> {
    let mut lines = command_buffers::lines();
    let n = read_input(rt, &mut lines)?;
    if n >= command_buffers::LINES {
        return Err(Ending::InputTooLong);
    }
    let mut out = command_buffers::block();
    let made = command_subcommands::write_body(&lines[..n], &mut out);
    let ending = sent(rt, made, &out);
    end(rt, ending, b"");
    Ok(())
}

// Does what the words ask for, or answers how the command ends where its last line is still to be written, and speaks of no list.
fn run(rt: &HostRuntime) -> Result<(), Ending> {
    let mut word = command_buffers::word();
    let n = command_files::argument(rt, 1, &mut word);
    match command_words::asked(command_files::argument_count(rt), &word[..n]) {
        Some(Asked::Strip) => with_block(rt, strip),
        Some(Asked::Log) => with_block(rt, strip_logged),
        Some(Asked::Report) => with_block(rt, report),
        Some(Asked::Explain) => with_block(rt, explain),
        Some(Asked::Judge) => judge(rt),
        Some(Asked::Check) => check(rt),
        Some(Asked::Write) => write(rt),
        None => Err(Ending::Usage),
    }
}

fn main(rt: HostRuntime) {
    if let Err(ending) = run(&rt) {
        end(&rt, ending, b"");
    }
}
