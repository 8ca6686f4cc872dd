// What was read of a text, and the steps of reading.

ghost use Rattle.std.specs.Prelude.{◌≡◌, ◌++◌, Ok};
ghost use Rattle.sexp_text.specs.Items.{items_of};
ghost use Rattle.sexp_text.specs.Reading.{Gives, opened, closed, added};
ghost use Rattle.sexp_text.specs.words.Fronts.{front_of};

use crate::fault::{TextFault, TextWord};
use crate::sexp::{Node, Sexp};
use std::alloc::Global;
use wasm_values::{Bytes, LimitWord, List};

/// The most lists that are open at once.
const MAX_NESTING: usize = 500;

/// A list whose `)` has not come.
#[derive(Drop)]
pub(crate) struct OpenList {
    at: usize,
    parts: List<Sexp>,
}

/// What was read of a text.
#[derive(Drop)]
pub(crate) enum Progress {
    Before,
    Inside {
        outer: List<OpenList>,
        inner: OpenList,
    },
    After(Sexp),
}

/// What the next byte belongs to.
#[derive(Drop)]
pub(crate) enum Mode {
    Between,
    Comment,
    Run { from: usize, run: Bytes },
    Quoted { from: usize, bytes: Bytes },
    Escape { from: usize, bytes: Bytes },
    Digit { from: usize, bytes: Bytes, high: u8 },
}

impl Progress {
    /// A list begins.
    pub(crate) fn open(self, alloc: Global, at: usize) -> Result<Progress, TextFault>
        ensures { Gives front_of result (opened at (front_of self)) }
    {
        let inner = OpenList {
            at,
            parts: List::new(alloc),
        };
        match self {
            Progress::Before => Ok(Progress::Inside {
                outer: List::new(alloc),
                inner,
            }),
            Progress::Inside {
                mut outer,
                inner: around,
            } => {
                if outer.as_slice().len() + 1 >= MAX_NESTING {
                    return Err(TextFault::Limit {
                        at,
                        word: LimitWord::Nesting,
                    });
                }
                outer.push(around)?;
                Ok(Progress::Inside { outer, inner })
            }
            Progress::After(_) => Err(TextFault::Refused {
                at,
                word: TextWord::Rest,
            }),
        }
    }

    /// The innermost open list ends.
    pub(crate) fn close(self, at: usize) -> Result<Progress, TextFault>
        ensures { Gives front_of result (closed at (front_of self)) }
    {
        match self {
            Progress::Inside { mut outer, inner } => {
                let whole = Sexp {
                    at: inner.at,
                    node: Node::List {
                        parts: inner.parts,
                        close: at,
                    },
                };
                match outer.pop() {
                    None => Ok(Progress::After(whole)),
                    Some(mut around) => {
                        around.parts.push(whole)?;
                        Ok(Progress::Inside {
                            outer,
                            inner: around,
                        })
                    }
                }
            }
            Progress::Before => Err(TextFault::Refused {
                at,
                word: TextWord::Close,
            }),
            Progress::After(_) => Err(TextFault::Refused {
                at,
                word: TextWord::Close,
            }),
        }
    }

    /// A number, a word or a string of the innermost open list. Outside of the list it changes nothing.
    pub(crate) fn add(self, part: Sexp) -> Result<Progress, TextFault>
        ensures { Gives front_of result (Ok (added (items_of part) (front_of self))) }
    {
        match self {
            Progress::Inside { outer, mut inner } => {
                inner.parts.push(part)?;
                Ok(Progress::Inside { outer, inner })
            }
            Progress::Before => Ok(Progress::Before),
            Progress::After(whole) => Ok(Progress::After(whole)),
        }
    }
}
