use crate::words::{Unknown, cut, number};
use search::RECORDS;
use solution::BYTES;
use std::fmt;

/// Which move is meant: by its number, or by its text without the closing blanks.
#[derive(Clone, Copy)]
pub enum Choice<'a> {
    Number(usize),
    Text(&'a [u8]),
}

/// The games that can be made.
#[derive(Clone, Copy)]
pub enum Kind {
    Chess,
    Othello,
}

impl Kind {
    /// The game of that name.
    fn named(name: &[u8]) -> Option<Kind> {
        match name {
            b"chess" => Some(Kind::Chess),
            b"othello" => Some(Kind::Othello),
            _ => None,
        }
    }
}

impl fmt::Display for Kind {
    fn fmt<W: fmt::Write>(&self, f: &mut fmt::Formatter<W>) -> fmt::Result {
        match self {
            Kind::Chess => write!(f, "chess"),
            Kind::Othello => write!(f, "othello"),
        }
    }
}

/// The policies of the transposition table.
#[derive(Clone, Copy)]
pub enum Policy {
    None,
    Newest,
}

impl Policy {
    /// The policy of that name.
    fn named(name: &[u8]) -> Option<Policy> {
        match name {
            b"none" => Some(Policy::None),
            b"newest" => Some(Policy::Newest),
            _ => None,
        }
    }
}

impl fmt::Display for Policy {
    fn fmt<W: fmt::Write>(&self, f: &mut fmt::Formatter<W>) -> fmt::Result {
        match self {
            Policy::None => write!(f, "none"),
            Policy::Newest => write!(f, "newest"),
        }
    }
}

/// How many pair records and how many bytes of a buffer are lent to a call. Where a line does not say, it is as many records as a call can
/// use, and the longest buffer, which has room for 4,096 lines.
#[derive(Clone, Copy, Default)]
pub struct Loan {
    pub records: usize,
    pub buffer: usize,
}

/// A call of the tester, with its moves as the line names them: by number or by text, where the tester's own `Call` has numbers alone.
#[derive(Clone, Copy)]
pub enum Request<'a> {
    Set { aim: u32, text: &'a [u8] },
    Play(Choice<'a>),
    Back,
    Trial(u32),
    Solution { intended: Choice<'a>, budget: u32 },
    Clear,
}

/// What is asked of the tester that was made last: to show its game, or a call.
#[derive(Clone, Copy)]
pub enum Question<'a> {
    Board,
    Moves,
    Find(&'a [u8]),
    Call(Request<'a>, Loan),
}

/// A call that is lent nothing.
impl<'a> From<Request<'a>> for Question<'a> {
    fn from(request: Request<'a>) -> Question<'a> {
        Question::Call(request, Loan::default())
    }
}

/// What a line asks for.
#[derive(Clone, Copy)]
pub enum Command<'a> {
    Make { kind: Kind, policy: Policy },
    Ask(Question<'a>),
    Help,
}

/// A number for a call that takes 32 bits: the largest of them where it is larger.
fn short(value: usize) -> u32 {
    u32::try_from(value).unwrap_or(u32::MAX)
}

/// The move that a word means.
fn chosen(word: &[u8]) -> Choice<'_> {
    match number(word) {
        Ok(number) => Choice::Number(number),
        Err(Unknown(text)) => Choice::Text(text),
    }
}

/// `make GAME POLICY`.
fn make(rest: &[u8]) -> Result<Command<'_>, Unknown<'_>> {
    let (game, policy) = cut(rest);
    let kind = Kind::named(game).ok_or(Unknown(rest))?;
    let policy = policy.ok_or(Unknown(rest))?;
    let policy = Policy::named(policy).ok_or(Unknown(policy))?;
    Ok(Command::Make { kind, policy })
}

/// `set AIM TEXT`: the text is all that follows the blank after the aim.
fn set(rest: &[u8]) -> Result<Question<'_>, Unknown<'_>> {
    let (aim, text) = cut(rest);
    let aim = short(number(aim)?);
    let text = text.unwrap_or(b"");
    Ok(Request::Set { aim, text }.into())
}

/// `trial BUDGET`, or `trial BUDGET RECORDS`.
fn trial(rest: &[u8]) -> Result<Question<'_>, Unknown<'_>> {
    let (budget, records) = cut(rest);
    let budget = short(number(budget)?);
    let records = records.map_or(Ok(RECORDS), number)?;
    Ok(Question::Call(Request::Trial(budget), Loan { records, buffer: 0 }))
}

/// What a solution is lent, by what follows its budget: nothing, `BUFFER`, or `BUFFER RECORDS`.
fn lent(rest: Option<&[u8]>) -> Result<Loan, Unknown<'_>> {
    let Some(rest) = rest else {
        return Ok(Loan {
            records: RECORDS,
            buffer: BYTES,
        });
    };
    let (buffer, records) = cut(rest);
    let buffer = number(buffer)?;
    let records = records.map_or(Ok(RECORDS), number)?;
    Ok(Loan { records, buffer })
}

/// `solution MOVE BUDGET`, and what may follow it.
fn solution(rest: &[u8]) -> Result<Question<'_>, Unknown<'_>> {
    let (intended, budget) = cut(rest);
    let intended = chosen(intended);
    let (budget, rest) = cut(budget.ok_or(Unknown(rest))?);
    let budget = short(number(budget)?);
    Ok(Question::Call(Request::Solution { intended, budget }, lent(rest)?))
}

/// A command of one word, which is the line.
fn single(line: &[u8]) -> Result<Command<'_>, Unknown<'_>> {
    match line {
        b"board" => Ok(Command::Ask(Question::Board)),
        b"moves" => Ok(Command::Ask(Question::Moves)),
        b"back" => Ok(Command::Ask(Request::Back.into())),
        b"clear" => Ok(Command::Ask(Request::Clear.into())),
        b"help" => Ok(Command::Help),
        _ => Err(Unknown(line)),
    }
}

/// A command of more than one word: the first, and the rest of the line.
fn longer<'a>(line: &'a [u8], word: &'a [u8], rest: &'a [u8]) -> Result<Command<'a>, Unknown<'a>> {
    match word {
        b"make" => make(rest),
        b"set" => set(rest).map(Command::Ask),
        b"find" => Ok(Command::Ask(Question::Find(rest))),
        b"play" => Ok(Command::Ask(Request::Play(chosen(rest)).into())),
        b"trial" => trial(rest).map(Command::Ask),
        b"solution" => solution(rest).map(Command::Ask),
        b"board" | b"moves" | b"back" | b"clear" | b"help" => Err(Unknown(rest)),
        _ => Err(Unknown(line)),
    }
}

/// What a line asks for: nothing where it is empty or begins with `#`.
pub fn parse(line: &[u8]) -> Result<Option<Command<'_>>, Unknown<'_>> {
    if let [] | [b'#', ..] = line {
        return Ok(None);
    }
    match cut(line) {
        (word, Some(rest)) => longer(line, word, rest).map(Some),
        (_, None) => single(line).map(Some),
    }
}
