// What a line asks for.
use crate::error::BadLine;
use crate::filters::Placed;
use crate::kinds::{Carried, MessageKind, OperationKind, RoleKind, Switch};
use crate::words::{Place, Room, Value, Words};
use filter::Header;
use table::Role;
use table::bearer::is_identity;

pub const LONGEST_LINE: usize = 2048;

const MOST_TIMES: usize = 1000000;

#[derive(Clone, Copy)]
pub enum Call<'a> {
    Default {
        bearer: u8,
    },
    Dedicated {
        bearer: u8,
        link: u8,
        transaction: u8,
        value: Value<'a>,
    },
    Modify {
        bearer: u8,
        transaction: u8,
        value: Value<'a>,
    },
    Deactivate {
        bearer: u8,
        transaction: u8,
    },
    Start {
        transaction: u8,
        bearer: u8,
    },
    Reject {
        transaction: u8,
        cause: u8,
    },
}

// What is done to a bearer or to a held list by hand. The identities are those that bearers have, but for that of an entry that names nothing.
#[derive(Clone, Copy)]
pub enum Hand {
    Force {
        bearer: u8,
        role: Role,
        transaction: u8,
    },
    Place {
        bearer: u8,
        placed: Placed,
    },
    Entry {
        identity: u8,
        position: u8,
        bearer: u8,
        place: Place,
    },
}

// What is done to the operation that is being composed.
#[derive(Clone, Copy)]
pub enum Part {
    Kind(OperationKind),
    Filter(Placed),
    Identifier(Place),
}

// What is done with the element that arrives split.
#[derive(Clone, Copy)]
pub enum Feeding<'a> {
    Announce(u16),
    Portion(&'a [u8]),
    Finish,
    Force {
        announced: u8,
        fed: u8,
        octets: &'a [u8],
    },
}

// A message to be written. What it carries is the link or the cause.
#[derive(Clone, Copy)]
pub struct Assembly<'a> {
    pub kind: MessageKind,
    pub bearer: u8,
    pub transaction: u8,
    pub carried: u8,
    pub tft: Option<&'a [u8]>,
    pub room: Room,
}

// What changes nothing. The identity of `List` is one that bearers have.
#[derive(Clone, Copy)]
pub enum Question<'a> {
    Route { default: u8, header: Header },
    Why { default: u8, header: Header },
    Check,
    Show,
    List(u8),
    Element(Value<'a>),
    Rewrite { value: Value<'a>, room: Room },
    Emit(Room),
    Status(Room),
    Compare(&'a [u8]),
    Parse(&'a [u8]),
    Assemble(Assembly<'a>),
}

#[derive(Clone, Copy)]
pub enum Command<'a> {
    Call(Call<'a>),
    Synchronise(&'a [u8]),
    Message(&'a [u8]),
    Hand(Hand),
    Compose(Part),
    Feed(Feeding<'a>),
    Echo(Switch),
    Ask(Question<'a>),
}

// What a line asks for, and how often.
#[derive(Clone, Copy)]
pub struct Asked<'a> {
    pub command: Command<'a>,
    pub times: usize,
}

fn read_role(words: &mut Words<'_>) -> Result<Role, BadLine> {
    Ok(match RoleKind::from_word(words.word()?)? {
        RoleKind::Idle => Role::Idle,
        RoleKind::Default => Role::Default,
        RoleKind::Dedicated => Role::Dedicated(words.number()?),
    })
}

fn read_header(words: &mut Words<'_>) -> Result<Header, BadLine> {
    Ok(Header {
        version: words.number()?,
        address: words.address()?,
        protocol: words.number()?,
        local: words.number()?,
        remote: words.number()?,
        index: words.number()?,
        class: words.number()?,
        label: words.number()?,
    })
}

// The entry names a filter of a bearer, or nothing where both are 0.
fn read_entry(words: &mut Words<'_>) -> Result<Hand, BadLine> {
    let identity = words.identity()?;
    let position = words.number()?;
    let bearer = words.number()?;
    let place: Place = words.at_most()?;
    if !is_identity(bearer) && (bearer != 0 || place.value != 0) {
        return Err(BadLine);
    }
    Ok(Hand::Entry {
        identity,
        position,
        bearer,
        place,
    })
}

// A filter is for an operation that is being composed.
fn read_filter(words: &mut Words<'_>, times: usize, composing: bool) -> Result<Part, BadLine> {
    if !composing {
        return Err(BadLine);
    }
    Ok(Part::Filter(Placed::read(words, times)?))
}

fn read_assembly<'a>(words: &mut Words<'_>, octets: &'a mut [u8]) -> Result<Assembly<'a>, BadLine> {
    let assembly = Assembly {
        kind: MessageKind::from_word(words.word()?)?,
        bearer: words.number()?,
        transaction: words.number()?,
        carried: words.number()?,
        tft: words.tft(octets)?,
        room: words.at_most()?,
    };
    match assembly.kind.carries() {
        Carried::Nothing if assembly.carried != 0 => Err(BadLine),
        _ => Ok(assembly),
    }
}

// The lines are taken apart in three functions, each handing on what it does not know: in one they are too many for the check.
impl<'a> Command<'a> {
    fn read(
        words: &mut Words<'_>,
        times: usize,
        composing: bool,
        octets: &'a mut [u8],
    ) -> Result<Command<'a>, BadLine> {
        Ok(Command::Call(match words.word()? {
            b"default" => Call::Default {
                bearer: words.number()?,
            },
            b"dedicated" => Call::Dedicated {
                bearer: words.number()?,
                link: words.number()?,
                transaction: words.number()?,
                value: words.value(octets)?,
            },
            b"modify" => Call::Modify {
                bearer: words.number()?,
                transaction: words.number()?,
                value: words.value(octets)?,
            },
            b"deactivate" => Call::Deactivate {
                bearer: words.number()?,
                transaction: words.number()?,
            },
            b"start" => Call::Start {
                transaction: words.number()?,
                bearer: words.number()?,
            },
            b"reject" => Call::Reject {
                transaction: words.number()?,
                cause: words.number()?,
            },
            other => return Command::read_change(other, words, times, composing, octets),
        }))
    }

    fn read_change(
        word: &[u8],
        words: &mut Words<'_>,
        times: usize,
        composing: bool,
        octets: &'a mut [u8],
    ) -> Result<Command<'a>, BadLine> {
        Ok(match word {
            b"synchronise" => Command::Synchronise(words.hex(octets)?),
            b"message" => Command::Message(words.hex(octets)?),
            b"force" => Command::Hand(Hand::Force {
                bearer: words.identity()?,
                role: read_role(words)?,
                transaction: words.number()?,
            }),
            b"place" => Command::Hand(Hand::Place {
                bearer: words.identity()?,
                placed: Placed::read(words, times)?,
            }),
            b"force-entry" => Command::Hand(read_entry(words)?),
            b"compose" => Command::Compose(Part::Kind(OperationKind::from_word(words.word()?)?)),
            b"filter" => Command::Compose(read_filter(words, times, composing)?),
            b"identifier" => Command::Compose(Part::Identifier(words.at_most()?)),
            b"announce" => Command::Feed(Feeding::Announce(words.number()?)),
            b"portion" => Command::Feed(Feeding::Portion(words.hex(octets)?)),
            b"finish" => Command::Feed(Feeding::Finish),
            b"force-fed" => Command::Feed(Feeding::Force {
                announced: words.number()?,
                fed: words.number()?,
                octets: words.hex(octets)?,
            }),
            b"echo" => Command::Echo(Switch::from_word(words.word()?)?),
            _ => Command::Ask(Question::read(word, words, octets)?),
        })
    }
}

impl<'a> Question<'a> {
    fn read(
        word: &[u8],
        words: &mut Words<'_>,
        octets: &'a mut [u8],
    ) -> Result<Question<'a>, BadLine> {
        Ok(match word {
            b"route" => Question::Route {
                default: words.number()?,
                header: read_header(words)?,
            },
            b"why" => Question::Why {
                default: words.number()?,
                header: read_header(words)?,
            },
            b"check" => Question::Check,
            b"show" => Question::Show,
            b"list" => Question::List(words.identity()?),
            b"element" => Question::Element(words.value(octets)?),
            b"rewrite" => Question::Rewrite {
                value: words.value(octets)?,
                room: words.at_most()?,
            },
            b"emit" => Question::Emit(words.at_most()?),
            b"status" => Question::Status(words.at_most()?),
            b"compare" => Question::Compare(words.hex(octets)?),
            b"parse" => Question::Parse(words.hex(octets)?),
            b"assemble" => Question::Assemble(read_assembly(words, octets)?),
            _ => return Err(BadLine),
        })
    }
}

// What a line asks for; nothing where it is empty or a comment. The octets of its HEX are put into `octets`.
pub fn parse<'a>(
    line: &[u8],
    composing: bool,
    octets: &'a mut [u8],
) -> Result<Option<Asked<'a>>, BadLine> {
    if line.len() > LONGEST_LINE {
        return Err(BadLine);
    }
    let mut words = Words::new(line);
    let mut ahead = words;
    let times = match ahead.next() {
        None | Some([b'#', ..]) => return Ok(None),
        Some(b"repeat") => {
            words = ahead;
            words.at_most::<MOST_TIMES>()?.value
        }
        Some(_) => 1,
    };
    if times == 0 {
        return Err(BadLine);
    }
    let command = Command::read(&mut words, times, composing, octets)?;
    words.end()?;
    Ok(Some(Asked { command, times }))
}
