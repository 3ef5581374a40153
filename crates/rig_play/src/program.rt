//! A whole run: words, reading, checking or playing, and writing, each way to end with its status.
ghost use Rattle.std.specs.Prelude.{◌≡◌, ◌≢◌, ◌+◌, ◌^◌, ◌≤◌, ◌⊎◌, drop, OnErr, IsTrue, IfOk, OnOk, is_some, sum_by, Some, None, false};
ghost use Rattle.rig_io.specs.Faults.{rose};
ghost use Rattle.rig_io.specs.Bytes.{GaveAtMost, GaveOneMore, Appended, AppendedPrefix};
ghost use Rattle.rig_play.specs.Input.{Contents, contents_for, contents_to_check, contents_to_play};
ghost use Rattle.rig_play.specs.Made.{Answers, Stops, whole_text};
ghost use Rattle.rig_play.specs.Run.{AreTallies, Checks, Plays, Refuses, WrotePrefix, EndsAs, CountsAtMost, built, built_command};
ghost use Rattle.rig_play.specs.Run.{is_refusal, usage_line, too_long_line, not_json_line, unbuilt_line, status_for, text_for, ran_for};

use crate::check::checked_text;
use crate::command::{Command, CommandStop, command_line};
use crate::input::{InputStop, checked_scene, input_of};
use crate::play::play;
use crate::status::Status;
use rig_io::{NoMemory, ReadStop, Sink, Source, Tally, WriteFault, read_all, write_all};
use rig_scene::limits::MAX_INPUT_BYTES;
use rig_text::fault_text;
use std::alloc::Global;

const USAGE_LINE: &[u8] =
    b"usage: rigplay <check|eval|play|rehearse> [--workers N] [--trace] [--size N]\n";

const TOO_LONG_LINE: &[u8] = b"fault TooLong\n";

const NOT_JSON_LINE: &[u8] = b"fault NotJson\n";

const UNBUILT_LINE: &[u8] = b"fault Unbuilt\n";

/// What a run writes for an input, and how it ends where all of it is written.
#[derive(Drop)]
pub(crate) struct Answer {
    status: Status,
    texts: Vec<Vec<u8>>,
}

// Writes texts one after another.
fn write_each<K: Sink>(sink: &mut K, texts: &[Vec<u8>]) -> Result<(), WriteFault>
    ensures ok { OnOk result (Appended (K.written sink.old) (K.written sink.new) (whole_text texts.now)) }
    ensures err { OnErr result (AppendedPrefix (K.written sink.old) (K.written sink.new) (whole_text texts.now)) }
    ensures cause { OnErr result (IsTrue (rose (K.faults sink.old) (K.faults sink.new))) }
    ensures no_fault { OnOk result (K.faults sink.new ≡ K.faults sink.old) }
{
    for text in texts {
        match write_all(sink, text) {
            Ok(()) => {}
            Err(fault) => return Err(fault),
        }
    }
    Ok(())
}

// Ends with a status and its line.
fn tell<K: Sink>(sink: &mut K, line: &[u8], status: Status) -> Status
    requires { status ≢ Status.WriteFault }
    ensures told { result ≢ Status.WriteFault → (result ≡ status)
        × Appended (K.written sink.old) (K.written sink.new) line.now × (K.faults sink.new ≡ K.faults sink.old) }
    ensures fault { result ≡ Status.WriteFault → IsTrue (rose (K.faults sink.old) (K.faults sink.new))
        × AppendedPrefix (K.written sink.old) (K.written sink.new) line.now }
{
    match write_all(sink, line) {
        Ok(()) => status,
        Err(_) => Status::WriteFault,
    }
}

// Ends with an answer, whose texts it writes.
fn finish<K: Sink>(sink: &mut K, answer: &Answer) -> Status
    requires { answer.now.status ≢ Status.WriteFault }
    ensures finished { result ≢ Status.WriteFault → (result ≡ answer.now.status)
        × Appended (K.written sink.old) (K.written sink.new) (whole_text answer.now.texts.items) × (K.faults sink.new ≡ K.faults sink.old) }
    ensures fault { result ≡ Status.WriteFault → IsTrue (rose (K.faults sink.old) (K.faults sink.new))
        × AppendedPrefix (K.written sink.old) (K.written sink.new) (whole_text answer.now.texts.items) }
{
    match write_each(sink, answer.texts.as_slice()) {
        Ok(()) => answer.status,
        Err(_) => Status::WriteFault,
    }
}

// The answer of one text.
fn answer_of(alloc: Global, status: Status, text: Vec<u8>) -> Result<Answer, NoMemory>
    ensures { IfOk result (λ answer. (answer.status ≡ status) × (whole_text answer.texts.items ≡ text.items)) }
{
    let mut texts = Vec::new(alloc);
    texts.push(text)?;
    Ok(Answer { status, texts })
}

// The answer of one line.
fn line_answer(alloc: Global, status: Status, line: &[u8]) -> Result<Answer, NoMemory>
    ensures { IfOk result (λ answer. (answer.status ≡ status) × (whole_text answer.texts.items ≡ line.now)) }
{
    let text = Vec::from_slice(alloc, line)?;
    answer_of(alloc, status, text)
}

// What is said of an input that is neither checked nor played.
fn refusal(alloc: Global, stop: InputStop) -> Result<Answer, NoMemory>
    ensures answer { (contents : Contents) → Stops stop contents → IfOk result (Answers contents) }
    ensures unplayed { (contents : Contents) → Stops stop contents → OnOk result (ran_for contents ≡ 0) }
{
    match stop {
        InputStop::NoMemory => Err(NoMemory),
        InputStop::NotJson => line_answer(alloc, Status::NotJson, NOT_JSON_LINE),
        InputStop::BadScene(fault) => {
            let line = fault_text(alloc, &fault, true)?;
            answer_of(alloc, Status::BadScene, line)
        }
        InputStop::BadScript(fault) => {
            let line = fault_text(alloc, &fault, false)?;
            answer_of(alloc, Status::BadScript, line)
        }
        InputStop::Unbuilt => line_answer(alloc, Status::Unbuilt, UNBUILT_LINE),
    }
}

// Checks the scene that the bytes stand for, or says what is wrong with it.
fn check(alloc: Global, bytes: &[u8]) -> Result<Answer, NoMemory>
    ensures answer { IfOk result (Answers (contents_to_check bytes.now)) }
    ensures unplayed { OnOk result (ran_for (contents_to_check bytes.now) ≡ 0) }
{
    match checked_scene(alloc, bytes) {
        Ok(scene) => {
            let text = checked_text(alloc, &scene)?;
            answer_of(alloc, Status::Ok, text)
        }
        Err(stop) => refusal(alloc, stop),
    }
}

// Plays what the bytes stand for, or says what is wrong with them.
fn eval<Y: Tally>(alloc: Global, bytes: &[u8], tally: &mut Y) -> Result<Answer, NoMemory>
    requires { Y.count tally.old ≤ 2 ^ 61 }
    ensures answer { IfOk result (Answers (contents_to_play bytes.now)) }
    ensures ticks { OnOk result (Y.count tally.new ≡ Y.count tally.old + ran_for (contents_to_play bytes.now)) }
    ensures uncounted { IfOk result (λ answer. answer.status ≢ Status.Ok → tally.new ≡ tally.old) }
    ensures rises { Y.count tally.old ≤ Y.count tally.new }
    ensures at_most { Y.count tally.new ≤ Y.count tally.old + ran_for (contents_to_play bytes.now) }
{
    match input_of(alloc, bytes) {
        Ok(input) => {
            let texts = play(alloc, input, tally)?;
            Ok(Answer {
                status: Status::Ok,
                texts,
            })
        }
        Err(stop) => refusal(alloc, stop),
    }
}

// Checks or plays what the bytes stand for, or says what is wrong with them.
fn answer_to<Y: Tally>(
    alloc: Global,
    command: Command,
    bytes: &[u8],
    tally: &mut Y,
) -> Result<Answer, NoMemory>
    requires { Y.count tally.old ≤ 2 ^ 61 }
    ensures answer { IfOk result (Answers (contents_for command bytes.now)) }
    ensures ticks { OnOk result (Y.count tally.new ≡ Y.count tally.old + ran_for (contents_for command bytes.now)) }
    ensures uncounted { IfOk result (λ answer. answer.status ≢ Status.Ok → tally.new ≡ tally.old) }
    ensures rises { Y.count tally.old ≤ Y.count tally.new }
    ensures at_most { Y.count tally.new ≤ Y.count tally.old + ran_for (contents_for command bytes.now) }
{
    match command {
        Command::Check => check(alloc, bytes),
        Command::Eval | Command::Play | Command::Rehearse => eval(alloc, bytes, tally),
    }
}

// Answers an input that was read to its end.
fn respond<K: Sink, Y: Tally + Send>(
    alloc: Global,
    command: Command,
    bytes: &[u8],
    sink: &mut K,
    tallies: &mut [Y],
) -> Status
    requires { AreTallies Y.count tallies.old }
    ensures ended { result ≢ Status.NoMemory → result ≢ Status.WriteFault → (result ≡ status_for (contents_for command bytes.now))
        × Appended (K.written sink.old) (K.written sink.new) (text_for (contents_for command bytes.now))
        × (sum_by Y.count tallies.new ≡ sum_by Y.count tallies.old + ran_for (contents_for command bytes.now)) }
    ensures no_memory { result ≡ Status.NoMemory → sink.new ≡ sink.old }
    ensures write_fault { result ≡ Status.WriteFault → IsTrue (rose (K.faults sink.old) (K.faults sink.new))
        × AppendedPrefix (K.written sink.old) (K.written sink.new) (text_for (contents_for command bytes.now)) }
    ensures no_write_fault { result ≢ Status.WriteFault → K.faults sink.new ≡ K.faults sink.old }
    ensures uncounted { IsTrue (is_refusal result) → tallies.new ≡ tallies.old }
    ensures rises { sum_by Y.count tallies.old ≤ sum_by Y.count tallies.new }
    ensures at_most { sum_by Y.count tallies.new ≤ sum_by Y.count tallies.old + ran_for (contents_for command bytes.now) }
    ensures first_alone { drop 1 tallies.new ≡ drop 1 tallies.old }
    ensures others { (result ≢ Status.Usage) × (result ≢ Status.ReadFault) × (result ≢ Status.TooLong) }
{
    match answer_to(alloc, command, bytes, &mut tallies[0]) {
        Ok(answer) => finish(sink, &answer),
        Err(_) => Status::NoMemory,
    }
}

// The command of the words, where they are a command line and it is built.
fn built(alloc: Global, words: &[String]) -> Result<Option<Command>, NoMemory>
    ensures { IfOk result (λ command. command ≡ built words.now) }
{
    match command_line(alloc, words) {
        Ok(line) => Ok(built_command(line.command)),
        Err(CommandStop::Refused) => Ok(None),
        Err(CommandStop::NoMemory) => Err(NoMemory),
    }
}

fn built_command(command: Command) -> Option<Command>
    ensures { result ≡ built_command command }
{
    match command {
        Command::Check | Command::Eval => Some(command),
        Command::Play | Command::Rehearse => None,
    }
}

/// Runs a command that always returns: `check`, which tells what the scene of an input has, or `eval`, which plays its one track.
///
/// `words` has the program's name first. Of the tallies the first one ticks once for each operation that runs.
/// Where the words aren't a command line, or name a command that isn't built, nothing is read. Whatever fails, want of memory leaves
/// the sink alone.
pub fn run_plain<S: Source, K: Sink, Y: Tally + Send>(
    alloc: Global,
    words: &[String],
    source: &mut S,
    sink: &mut K,
    tallies: &mut [Y],
) -> Status
    requires { AreTallies Y.count tallies.old }

    // Ok says that the input was read to its end, and checked or played: its text was written, its operations counted.
    ensures ok_eval { result ≡ Status.Ok → built words.now ≡ Some Command.Eval → Plays (S.left source.old) (S.left source.new)
        (K.written sink.old) (K.written sink.new) (sum_by Y.count tallies.old) (sum_by Y.count tallies.new) }
    ensures ok_check { result ≡ Status.Ok → built words.now ≡ Some Command.Check → Checks (S.left source.old) (S.left source.new)
        (K.written sink.old) (K.written sink.new) (sum_by Y.count tallies.old) (sum_by Y.count tallies.new) }
    ensures ok_words { result ≡ Status.Ok → (built words.now ≡ Some Command.Eval) ⊎ (built words.now ≡ Some Command.Check) }

    // Usage comes exactly where the words aren't a command line, or its command isn't built, but for want of memory and for a failed
    // write of its line.
    ensures usage { result ≡ Status.Usage → (built words.now ≡ None)
        × Appended (K.written sink.old) (K.written sink.new) usage_line }
    ensures other_words { built words.now ≡ None →
        ((result ≡ Status.Usage) ⊎ (result ≡ Status.WriteFault) ⊎ (result ≡ Status.NoMemory)) × (source.new ≡ source.old) }

    // TooLong comes where the source gave more bytes than the limit.
    ensures too_long { result ≡ Status.TooLong → IsTrue (is_some (built words.now))
        × Appended (K.written sink.old) (K.written sink.new) too_long_line
        × GaveOneMore (S.left source.old) (S.left source.new) MAX_INPUT_BYTES }

    // NotJson, BadScene, BadScript and Unbuilt come where that is what the bytes stand for.
    ensures refused { IsTrue (is_refusal result) →
        Refuses (built words.now) (S.left source.old) (S.left source.new) (K.written sink.old) (K.written sink.new) result }

    // The faults of the outside have their causes.
    ensures read_fault { result ≡ Status.ReadFault → IsTrue (is_some (built words.now))
        × IsTrue (rose (S.faults source.old) (S.faults source.new)) × (sink.new ≡ sink.old)
        × GaveAtMost (S.left source.old) (S.left source.new) MAX_INPUT_BYTES }
    ensures write_fault { result ≡ Status.WriteFault → IsTrue (rose (K.faults sink.old) (K.faults sink.new))
        × WrotePrefix (built words.now) (S.left source.old) (S.left source.new) (K.written sink.old) (K.written sink.new) }
    ensures no_memory { result ≡ Status.NoMemory → (sink.new ≡ sink.old)
        × GaveAtMost (S.left source.old) (S.left source.new) MAX_INPUT_BYTES }

    // A failed call comes to light by the status, and no other status passes one over.
    ensures no_read_fault { result ≢ Status.ReadFault → S.faults source.new ≡ S.faults source.old }
    ensures no_write_fault { result ≢ Status.WriteFault → K.faults sink.new ≡ K.faults sink.old }

    // What is counted where nothing was played, or not to its end.
    ensures uncounted { result ≢ Status.Ok → result ≢ Status.NoMemory → result ≢ Status.WriteFault → tallies.new ≡ tallies.old }
    ensures counted { (result ≡ Status.NoMemory) ⊎ (result ≡ Status.WriteFault) →
        CountsAtMost (built words.now) (S.left source.old) (S.left source.new) (sum_by Y.count tallies.old) (sum_by Y.count tallies.new) }
    ensures first_alone { drop 1 tallies.new ≡ drop 1 tallies.old }

    // Where nothing fails, the bytes decide.
    ensures complete { (command : Command) → built words.now ≡ Some command → rose (S.faults source.old) (S.faults source.new) ≡ false →
        rose (K.faults sink.old) (K.faults sink.new) ≡ false → EndsAs command (S.left source.old) result }
{
    let command = match built(alloc, words) {
        Ok(Some(command)) => command,
        Ok(None) => return tell(sink, USAGE_LINE, Status::Usage),
        Err(_) => return Status::NoMemory,
    };
    match read_all(alloc, source, MAX_INPUT_BYTES) {
        Ok(bytes) => respond(alloc, command, &bytes, sink, tallies),
        Err(ReadStop::NoMemory) => Status::NoMemory,
        Err(ReadStop::Fault) => Status::ReadFault,
        Err(ReadStop::TooLong) => tell(sink, TOO_LONG_LINE, Status::TooLong),
    }
}

/// Runs a command. At present each one always returns, and is run as [`run_plain`] runs it.
///
/// `words` has the program's name first. Of the tallies the first one ticks once for each operation that runs.
/// Where the words aren't a command line, or name a command that isn't built, nothing is read. Whatever fails, want of memory leaves
/// the sink alone.
pub fn run<S: Source, K: Sink, Y: Tally + Send>(
    alloc: Global,
    words: &[String],
    source: &mut S,
    sink: &mut K,
    tallies: &mut [Y],
) -> Status
    requires { AreTallies Y.count tallies.old }

    // Ok says that the input was read to its end, and checked or played: its text was written, its operations counted.
    ensures ok_eval { result ≡ Status.Ok → built words.now ≡ Some Command.Eval → Plays (S.left source.old) (S.left source.new)
        (K.written sink.old) (K.written sink.new) (sum_by Y.count tallies.old) (sum_by Y.count tallies.new) }
    ensures ok_check { result ≡ Status.Ok → built words.now ≡ Some Command.Check → Checks (S.left source.old) (S.left source.new)
        (K.written sink.old) (K.written sink.new) (sum_by Y.count tallies.old) (sum_by Y.count tallies.new) }
    ensures ok_words { result ≡ Status.Ok → (built words.now ≡ Some Command.Eval) ⊎ (built words.now ≡ Some Command.Check) }

    // Usage comes exactly where the words aren't a command line, or its command isn't built, but for want of memory and for a failed
    // write of its line.
    ensures usage { result ≡ Status.Usage → (built words.now ≡ None)
        × Appended (K.written sink.old) (K.written sink.new) usage_line }
    ensures other_words { built words.now ≡ None →
        ((result ≡ Status.Usage) ⊎ (result ≡ Status.WriteFault) ⊎ (result ≡ Status.NoMemory)) × (source.new ≡ source.old) }

    // TooLong comes where the source gave more bytes than the limit.
    ensures too_long { result ≡ Status.TooLong → IsTrue (is_some (built words.now))
        × Appended (K.written sink.old) (K.written sink.new) too_long_line
        × GaveOneMore (S.left source.old) (S.left source.new) MAX_INPUT_BYTES }

    // NotJson, BadScene, BadScript and Unbuilt come where that is what the bytes stand for.
    ensures refused { IsTrue (is_refusal result) →
        Refuses (built words.now) (S.left source.old) (S.left source.new) (K.written sink.old) (K.written sink.new) result }

    // The faults of the outside have their causes.
    ensures read_fault { result ≡ Status.ReadFault → IsTrue (is_some (built words.now))
        × IsTrue (rose (S.faults source.old) (S.faults source.new)) × (sink.new ≡ sink.old)
        × GaveAtMost (S.left source.old) (S.left source.new) MAX_INPUT_BYTES }
    ensures write_fault { result ≡ Status.WriteFault → IsTrue (rose (K.faults sink.old) (K.faults sink.new))
        × WrotePrefix (built words.now) (S.left source.old) (S.left source.new) (K.written sink.old) (K.written sink.new) }
    ensures no_memory { result ≡ Status.NoMemory → (sink.new ≡ sink.old)
        × GaveAtMost (S.left source.old) (S.left source.new) MAX_INPUT_BYTES }

    // A failed call comes to light by the status, and no other status passes one over.
    ensures no_read_fault { result ≢ Status.ReadFault → S.faults source.new ≡ S.faults source.old }
    ensures no_write_fault { result ≢ Status.WriteFault → K.faults sink.new ≡ K.faults sink.old }

    // What is counted where nothing was played, or not to its end.
    ensures uncounted { result ≢ Status.Ok → result ≢ Status.NoMemory → result ≢ Status.WriteFault → tallies.new ≡ tallies.old }
    ensures counted { (result ≡ Status.NoMemory) ⊎ (result ≡ Status.WriteFault) →
        CountsAtMost (built words.now) (S.left source.old) (S.left source.new) (sum_by Y.count tallies.old) (sum_by Y.count tallies.new) }
    ensures first_alone { drop 1 tallies.new ≡ drop 1 tallies.old }

    // Where nothing fails, the bytes decide.
    ensures complete { (command : Command) → built words.now ≡ Some command → rose (S.faults source.old) (S.faults source.new) ≡ false →
        rose (K.faults sink.old) (K.faults sink.new) ≡ false → EndsAs command (S.left source.old) result }
{
    run_plain(alloc, words, source, sink, tallies)
}
