//! The top call.
ghost use Rattle.std.specs.Prelude.{◌≡◌, ◌≢◌, ◌⊎◌, ◌+◌, ◌≤◌, ◌↔◌, ℕ, List};
ghost use Rattle.std.specs.Prelude.{[], Err, None, Some, true, length, IsTrue, IsFalse, IfErr, IfOk, OnOk, OnErr};
ghost use Rattle.prefix_model.specs.Spelling.{IsBytes};
ghost use Rattle.prefix_io.specs.Causes.{Rose};
ghost use Rattle.prefix_io.specs.Streams.{AppendsPrefix};
ghost use Rattle.prefix_text.specs.Commands.{command_of, is_compact};
ghost use Rattle.prefix_app.specs.Compacted.{DidNotRise, IsCompacted, SpellsLeast, max_input};
ghost use Rattle.prefix_app.specs.Endings.{IsEndingStatus, ending_line, ending_status};
ghost use Rattle.prefix_app.specs.Outcome.{outcome, reads_input};
ghost use Rattle.prefix_app.specs.Runs.{HasLine, HasStatus, WritesOutput, WritesPart, comes_after_reading, reads};
ghost use Rattle.prefix_app.specs.Statuses.{line_of, line_of_error, refusal, status_of};
ghost use Rattle.prefix_app.specs.Steps.{IsInput, IsReadStatus};
ghost use Rattle.prefix_app.specs.Told.{AppendsThen, TakesThen, WhereTold};

use crate::commands::answer;
use crate::ending::Ending;
use crate::input::read_all;
use crate::status::Status;
use prefix_io::{Failed, Sink, Source};
use prefix_layout::ArchiveError;
use prefix_text::{Command, bad_line, parse_command};
use std::alloc::Global;

/// Runs the command that the words give, over the input, and hands over its output. [`Command`] lists the commands.
///
/// What a command does with its input stands in one definition, its outcome: a status, an output and a line. A run
/// that neither failed nor lacked memory has that status, and at `Done` has written that output. Every status but
/// `Done` has a line on `errors`, and only `Done` and `WriteFault` come with bytes on `output`.
pub fn run<S: Source, O: Sink, E: Sink>(
    alloc: Global,
    words: &[String],
    input: &mut S,
    output: &mut O,
    errors: &mut E,
) -> Status
    // With `compact`, the whole input spelled two tables, and what was appended spells two in which every address has
    // the answer that it had. No finite map with the same answers, in either family, has fewer entries.
    ensures done { IsTrue (is_compact words.now) → result ≡ Status.Done → WhereTold (S.left input.old) (λ bytes.
        AppendsThen (O.written output.old) (O.written output.new) (IsCompacted bytes)) }
    ensures done_least { IsTrue (is_compact words.now) → result ≡ Status.Done → WhereTold (S.left input.old) (λ bytes.
        AppendsThen (O.written output.old) (O.written output.new) (SpellsLeast bytes)) }

    // With every command, the status and the output are those of the outcome, but for faults and want of memory.
    ensures status { HasStatus words.now (S.left input.old) result }
    ensures complete { DidNotRise (S.faults input.old) (S.faults input.new)
        → DidNotRise (O.faults output.old) (O.faults output.new) → WhereTold (S.left input.old) (λ bytes.
        (result ≡ (outcome words.now bytes).status) ⊎ (result ≡ Status.NoMemory)) }
    ensures done_output { result ≡ Status.Done
        → WritesOutput words.now (S.left input.old) (O.written output.old) (O.written output.new) }
    ensures done_is_clean { result ≡ Status.Done → O.clean output.new ≡ true }
    ensures write_fault { result ≡ Status.WriteFault → Rose (O.faults output.old) (O.faults output.new) }
    ensures write_fault_part { result ≡ Status.WriteFault
        → WritesPart words.now (S.left input.old) (O.written output.old) (O.written output.new) }
    ensures output_kept { (result ≡ Status.Done) ⊎ ((result ≡ Status.WriteFault) ⊎ (output.new ≡ output.old)) }

    // What was read.
    ensures usage { (result ≡ Status.Usage) ↔ (command_of words.now ≡ None) }
    ensures reads_nothing { IsFalse (reads words.now) → input.new ≡ input.old }
    ensures reads_all { IsTrue (reads words.now) → IsTrue (comes_after_reading result)
        → WhereTold (S.left input.old) (λ bytes.
        (length bytes ≤ max_input) × IsBytes bytes × (S.left input.new ≡ Some [])) }
    ensures too_long { IsTrue (reads words.now) → TakesThen (S.left input.old) (S.left input.new) (λ taken _.
        (length taken ≤ max_input + 1) × ((result ≡ Status.TooLong) ↔ (length taken ≡ max_input + 1))) }
    ensures read_fault { result ≡ Status.ReadFault → Rose (S.faults input.old) (S.faults input.new) }

    // The line on `errors`, and a prefix of it where that sink failed.
    ensures line { (told : List ℕ) × HasLine words.now (S.left input.old) result told
        × AppendsPrefix (E.written errors.old) (E.written errors.new) told }
    ensures whole_line { Rose (E.faults errors.old) (E.faults errors.new)
        ⊎ AppendsThen (E.written errors.old) (E.written errors.new) (HasLine words.now (S.left input.old) result) }
    ensures line_is_clean { result ≢ Status.Done
        → Rose (E.faults errors.old) (E.faults errors.new) ⊎ (E.clean errors.new ≡ true) }
    ensures done_has_no_line { result ≡ Status.Done → errors.new ≡ errors.old }
{
    let command = match parse_command(words) {
        Some(command) => command,
        None => return tell(errors, Status::Usage),
    };
    let bytes = match read_input(alloc, command, input) {
        Ok(bytes) => bytes,
        Err(status) => return tell(errors, status),
    };
    let whole = match answer(alloc, command, &bytes) {
        Ok(whole) => whole,
        Err(ending) => return tell_ending(errors, ending),
    };
    match hand_over(output, &whole) {
        Ok(()) => Status::Done,
        Err(Failed) => tell(errors, Status::WriteFault),
    }
}

/// The whole input, where the command reads it, and else no bytes.
fn read_input<S: Source>(alloc: Global, command: Command, input: &mut S) -> Result<Vec<u8>, Status>
    ensures input { IfOk result (λ all. IsInput command (S.left input.old) (S.left input.new) all.items) }
    ensures nothing { IsFalse (reads_input command) → input.new ≡ input.old }
    ensures taken { IsTrue (reads_input command) → TakesThen (S.left input.old) (S.left input.new) (λ taken _.
        (length taken ≤ max_input + 1) × ((result ≡ Err Status.TooLong) ↔ (length taken ≡ max_input + 1))) }
    ensures fault { result ≡ Err Status.ReadFault → Rose (S.faults input.old) (S.faults input.new) }
    ensures causes { IfErr result (λ status. IsReadStatus status × IsTrue (reads_input command)) }
{
    if reads_input(command) {
        read_all(alloc, input)
    } else {
        Ok(Vec::new(alloc))
    }
}

/// Whether the command reads the input.
fn reads_input(command: Command) -> bool
    ensures { result ≡ reads_input command }
{
    match command {
        Command::Generate(_, _) => false,
        _ => true,
    }
}

/// Writes the whole output in one write, and flushes it.
#[tactic(auto, using(crate::proofs::RunLaws::appends_prefix))]
fn hand_over<O: Sink>(output: &mut O, bytes: &[u8]) -> Result<(), Failed>
    ensures part { AppendsPrefix (O.written output.old) (O.written output.new) bytes.now }
    ensures whole { OnOk result (AppendsThen (O.written output.old) (O.written output.new) (λ appended. appended ≡ bytes.now)) }
    ensures clean { OnOk result (O.clean output.new ≡ true) }
    ensures fault { OnErr result (Rose (O.faults output.old) (O.faults output.new)) }
{
    output.write(bytes)?;
    output.flush()
}

/// Writes the line of a status in one write, flushes it, and answers the status.
fn tell<E: Sink>(errors: &mut E, status: Status) -> Status
    ensures same { result ≡ status }
    ensures line { AppendsPrefix (E.written errors.old) (E.written errors.new) (line_of status) }
    ensures whole_line { Rose (E.faults errors.old) (E.faults errors.new)
        ⊎ AppendsThen (E.written errors.old) (E.written errors.new) (λ appended. appended ≡ line_of status) }
    ensures clean { Rose (E.faults errors.old) (E.faults errors.new) ⊎ (E.clean errors.new ≡ true) }
{
    let _ = hand_over(errors, line(status));
    status
}

/// Writes the line of an ending in one write, flushes it, and answers the status that the ending has.
fn tell_ending<E: Sink>(errors: &mut E, ending: Ending) -> Status
    ensures same { result ≡ ending_status ending }
    ensures causes { IsEndingStatus result }
    ensures line { AppendsPrefix (E.written errors.old) (E.written errors.new) (ending_line ending) }
    ensures whole_line { Rose (E.faults errors.old) (E.faults errors.new)
        ⊎ AppendsThen (E.written errors.old) (E.written errors.new) (λ appended. appended ≡ ending_line ending) }
    ensures clean { Rose (E.faults errors.old) (E.faults errors.new) ⊎ (E.clean errors.new ≡ true) }
{
    match ending {
        Ending::NoMemory => tell(errors, Status::NoMemory),
        Ending::Archive(error) => tell_error(errors, error),
        Ending::BadLine(number) => {
            let line = bad_line(number);
            let _ = hand_over(errors, line.as_slice());
            Status::BadLine
        }
    }
}

/// Writes the line of an error of archives in one write, flushes it, and answers the status that the error has.
fn tell_error<E: Sink>(errors: &mut E, error: ArchiveError) -> Status
    ensures same { result ≡ status_of error }
    ensures causes { IsEndingStatus result }
    ensures line { AppendsPrefix (E.written errors.old) (E.written errors.new) (line_of_error error) }
    ensures whole_line { Rose (E.faults errors.old) (E.faults errors.new)
        ⊎ AppendsThen (E.written errors.old) (E.written errors.new) (λ appended. appended ≡ line_of_error error) }
    ensures clean { Rose (E.faults errors.old) (E.faults errors.new) ⊎ (E.clean errors.new ≡ true) }
{
    let _ = hand_over(errors, error_line(error));
    error_status(error)
}

/// The status that an error of archives has.
#[tactic(auto, unfolding(crate::specs::Statuses::status_of))]
fn error_status(error: ArchiveError) -> Status
    ensures same { result ≡ status_of error }
    ensures causes { IsEndingStatus result }
{
    match error {
        ArchiveError::NodeIndexOverflow | ArchiveError::DataIndexOverflow => Status::Overflow,
        ArchiveError::OutOfMemory => Status::NoMemory,
        _ => Status::Refused,
    }
}

/// The line that an error of archives has on the sink of errors.
#[tactic(auto, unfolding(crate::specs::Statuses::line_of_error))]
pub(crate) fn error_line(error: ArchiveError) -> &'static [u8]
    ensures { result.now ≡ line_of_error error }
{
    match error {
        ArchiveError::OutOfMemory => line(Status::NoMemory),
        _ => refusal_line(error),
    }
}

/// The line with the text of an error.
#[tactic(auto, unfolding(crate::specs::Statuses::refusal, prefix_layout::specs::Errors::text_of))]
fn refusal_line(error: ArchiveError) -> &'static [u8]
    ensures { result.now ≡ refusal error }
{
    match error {
        ArchiveError::Truncated => b"prefix_app: Archive is cut short.\n",
        ArchiveError::TrailingBytes => b"prefix_app: Archive has trailing bytes.\n",
        ArchiveError::InvalidValue => b"prefix_app: Invalid value.\n",
        ArchiveError::MissingRootNode => b"prefix_app: Missing the root node.\n",
        ArchiveError::NodeListTooLong => b"prefix_app: Node list is too long\n",
        ArchiveError::NodeListTooShort => b"prefix_app: Node list is too short\n",
        ArchiveError::NodeListInconsistent => b"prefix_app: Inconsistent node list\n",
        ArchiveError::DataListInconsistent => b"prefix_app: Inconsistent data list\n",
        ArchiveError::DataListTooShort => b"prefix_app: Data list is too short\n",
        ArchiveError::DataListTooLong => b"prefix_app: Data list is too long\n",
        ArchiveError::ContainsEmptyNode => b"prefix_app: Trie contains empty nodes.\n",
        ArchiveError::DepthExceedsPrefixRepr => {
            b"prefix_app: Depth of tree exceeds the number of bits in the prefix.\n"
        }
        ArchiveError::NodeIndexOverflow => b"prefix_app: Node list too long for 32-bit index.\n",
        ArchiveError::DataIndexOverflow => b"prefix_app: Data list too long for 32-bit index.\n",
        ArchiveError::OutOfMemory => b"prefix_app: Out of memory.\n",
    }
}

/// The line of a status on the sink of errors, where the status alone tells it.
#[tactic(auto, unfolding(crate::specs::Statuses::line_of))]
pub(crate) fn line(status: Status) -> &'static [u8]
    ensures { result.now ≡ line_of status }
{
    match status {
        Status::Usage => b"prefix_app: no such command\n",
        Status::ReadFault => b"prefix_app: read fault\n",
        Status::WriteFault => b"prefix_app: write fault\n",
        Status::NoMemory => b"prefix_app: out of memory\n",
        Status::TooLong => b"prefix_app: input too long\n",
        Status::Done | Status::Refused | Status::Overflow | Status::BadLine => b"",
    }
}
