//! A session over a reader and a sink: each line that comes is answered before the next is read.

ghost use Rattle.std.specs.Prelude.{◌≡◌, ◌<◌, ◌+◌, ◌^◌, [], ℕ, List, IfOk, IfErr, IfSome, MatchOption};
ghost use Rattle.change_apply.specs.Applied as applied;
ghost use Rattle.change_apply.specs.Sessions as sessions;
ghost use Rattle.change_apply.specs.Sessions.{CanChange, change_in};
ghost use Rattle.change_apply.specs.Standing.{Stands, change_of, scene_of};
ghost use Rattle.change_apply.specs.Talking as talking;
ghost use Rattle.change_apply.specs.Talking.{FaultsIn, Going, HasAnswered, HasBegun, HasHeard, HasSaid, SaidCame, Stops};
ghost use Rattle.change_apply.specs.Talks.{Bytes, CountsFaults, Ends};
ghost use Rattle.quiesce_core.specs.declared.event.Event.{Event};

use crate::reading::{Came, read_line};
use crate::replying::{push_history, push_reply, push_wait};
use crate::request::Request;
use crate::said::{Answer, Ending, Said};
use crate::saying::said_by;
use crate::session::Session;
use cfg_io::{Sink, write_all};
use config_graph::NoMemory;
use std::alloc::Global;
use std::io::BufRead;

/// Why a turn isn't made to its end.
#[derive(Clone, Copy, PartialEq, Eq)]
enum Stop {
    Unwritten,
    NoMemory,
}

/// A session that has begun, and its first answer.
#[derive(Drop)]
struct Begun {
    session: Session,
    answer: Answer,
}

/// Goes on at once where there is nothing to wait for.
fn answer_at_once(
    alloc: Global,
    session: &mut Session,
    text: &mut Vec<u8>,
) -> Result<Answer, NoMemory>
    requires { (es : List Event) × Stands session.old es }
    ensures { IfOk result (λ answer. (es : List Event) → Stands session.old es
        → HasAnswered (change_of session.old) (sessions.goes_on (change_of session.old) (scene_of session.old es))
        session.new answer 0 text.old.items text.new.items) }
{
    let mut told = Vec::new(alloc);
    let answer = session.go_on(alloc, &mut told)?;
    push_reply(text, 0, answer, &told)?;
    Ok(answer)
}

/// The answer to what was said by the line of this number.
fn answer_to(
    alloc: Global,
    session: &mut Session,
    number: u64,
    said: Said,
    text: &mut Vec<u8>,
) -> Result<Answer, NoMemory>
    requires { (es : List Event) × Stands session.old es }
    ensures { IfOk result (λ answer. (es : List Event) → Stands session.old es
        → HasAnswered (change_of session.old) (sessions.turn (change_of session.old) (scene_of session.old es) said)
        session.new answer number text.old.items text.new.items) }
{
    let mut told = Vec::new(alloc);
    let answer = session.hear(alloc, said, &mut told)?;
    push_reply(text, number, answer, &told)?;
    Ok(answer)
}

fn push_opening(alloc: Global, request: Request, text: &mut Vec<u8>) -> Result<Session, NoMemory>
    requires { CanChange (change_in request) }
    ensures { IfOk result (λ session. HasBegun request session text.old.items text.new.items) }
{
    let within = request.within;
    let mut told = Vec::new(alloc);
    let session = Session::begin(alloc, request, &mut told)?;
    push_history(text, &told)?;
    push_wait(text, within)?;
    Ok(session)
}

/// Begins a session, up to its first answer.
fn begin(alloc: Global, request: Request, text: &mut Vec<u8>) -> Result<Begun, NoMemory>
    requires { CanChange (change_in request) }
    ensures { IfOk result (λ begun. HasHeard request [] begun.session begun.answer text.old.items text.new.items) }
{
    let mut session = push_opening(alloc, request, text)?;
    let answer = answer_at_once(alloc, &mut session, text)?;
    Ok(Begun { session, answer })
}

/// Answers what was said, and puts the answer out.
fn say<K: Sink>(
    alloc: Global,
    sink: &mut K,
    session: &mut Session,
    number: u64,
    said: Said,
    text: &mut Vec<u8>,
) -> Result<Answer, Stop>
    requires { (es : List Event) × Stands session.old es }
    ensures ok { IfOk result (λ answer. (es : List Event) → Stands session.old es
        → HasSaid (change_of session.old) (sessions.turn (change_of session.old) (scene_of session.old es) said)
        session.new answer number (K.taken sink.old) (K.taken sink.new)) }
    ensures err { IfErr result (λ stop. (es : List Event) → Stands session.old es
        → Stops (sessions.turn (change_of session.old) (scene_of session.old es) said)
        number (K.taken sink.old) (K.taken sink.new) stop) }
    ensures faults { FaultsIn (K.faults sink.old) (K.faults sink.new) (talking.ended_by result) }
{
    text.clear();
    match answer_to(alloc, session, number, said, text) {
        Ok(answer) => match write_all(sink, text) {
            Ok(()) => Ok(answer),
            Err(_) => Err(Stop::Unwritten),
        },
        Err(_) => Err(Stop::NoMemory),
    }
}

fn ending_by(answer: Answer) -> Ending
    ensures { result ≡ applied.ending_of answer }
{
    match answer {
        Answer::Committed => Ending::Committed,
        Answer::Denied { .. } => Ending::Denied,
        Answer::Bad => Ending::Bad,
        Answer::Unread => Ending::Unread,
        _ => Ending::GivenUp,
    }
}

/// How a session ends by what came of a turn, if it does.
fn ended_by(said: Result<Answer, Stop>) -> Option<Ending>
    ensures { result ≡ talking.ended_by said }
{
    match said {
        Ok(Answer::Waits) | Ok(Answer::Ready) => None,
        Ok(answer) => Some(ending_by(answer)),
        Err(Stop::Unwritten) => Some(Ending::Unwritten),
        Err(Stop::NoMemory) => Some(Ending::NoMemory),
    }
}

/// What is said by what comes next, unless memory is wanted.
fn read_said<R: BufRead>(reader: &mut R, line: &mut Vec<u8>) -> Option<Said>
    ensures { IfSome result (SaidCame (R.remaining reader.old) (R.remaining reader.new)) }
{
    match read_line(reader, line) {
        Came::Line => Some(said_by(line)),
        Came::End => Some(Said::Over),
        Came::Fault => Some(Said::Broken),
        Came::NoMemory => None,
    }
}

/// Reads a line, or that none comes, and answers. So many lines came before. Says how the session ends, if it does.
fn take_turn<R: BufRead, K: Sink>(
    alloc: Global,
    reader: &mut R,
    sink: &mut K,
    session: &mut Session,
    number: u64,
    line: &mut Vec<u8>,
    text: &mut Vec<u8>,
) -> Option<Ending>
    requires few { number + 1 < 2 ^ 64 }
    requires going { (r : Request) × (came : Bytes) × (first : Bytes)
        × Going r came first (R.remaining reader.old) (K.taken sink.old) session.old number }
    ensures goes { (r : Request) (came first : Bytes)
        → Going r came first (R.remaining reader.old) (K.taken sink.old) session.old number
        → MatchOption result (Going r came first (R.remaining reader.new) (K.taken sink.new) session.new (number + 1))
        (Ends r came first (K.taken sink.new)) }
    ensures faults { FaultsIn (K.faults sink.old) (K.faults sink.new) result }
{
    let Some(said) = read_said(reader, line) else {
        return Some(Ending::NoMemory);
    };
    ended_by(say(alloc, sink, session, number + 1, said, text))
}

/// Answers lines one after the other, until the session is over.
fn talk<R: BufRead, K: Sink>(
    alloc: Global,
    reader: &mut R,
    sink: &mut K,
    session: &mut Session,
) -> Ending
    requires { (r : Request) × (came : Bytes) × (first : Bytes)
        × Going r came first (R.remaining reader.old) (K.taken sink.old) session.old 0 }
    ensures ends { (r : Request) (came first : Bytes)
        → Going r came first (R.remaining reader.old) (K.taken sink.old) session.old 0
        → Ends r came first (K.taken sink.new) result }
    ensures faults { CountsFaults (K.faults sink.old) (K.faults sink.new) result }
{
    let mut line = Vec::new(alloc);
    let mut text = Vec::new(alloc);
    for number in 0..u64::MAX {
        if let Some(ending) = take_turn(
            alloc, reader, sink, session, number, &mut line, &mut text,
        ) {
            return ending;
        }
    }
    Ending::NoMemory
}

/// Carries a change out on a system that runs elsewhere, by the lines that come from there.
///
/// What is written is a function of what is asked and of these lines, and so is how it ends, unless the input can't be
/// read on, the sink fails, or memory is wanted. That the sink failed ends it exactly where its count of faults rose.
pub fn apply<R: BufRead, K: Sink>(
    alloc: Global,
    request: Request,
    reader: &mut R,
    sink: &mut K,
) -> Ending
    requires { CanChange (change_in request) }
    ensures ends { Ends request (R.remaining reader.old) (K.taken sink.old) (K.taken sink.new) result }
    ensures faults { CountsFaults (K.faults sink.old) (K.faults sink.new) result }
{
    let mut text = Vec::new(alloc);
    let Ok(begun) = begin(alloc, request, &mut text) else {
        return Ending::NoMemory;
    };
    let mut session = begun.session;
    match write_all(sink, &text) {
        Ok(()) => match ended_by(Ok(begun.answer)) {
            Some(ending) => ending,
            None => talk(alloc, reader, sink, &mut session),
        },
        Err(_) => Ending::Unwritten,
    }
}
