//! How a session comes to be shared.

ghost use Rattle.std.specs.Prelude.{◌≡◌, ◌≤◌, [], false, length, true, IfErr, IfOk, OnOk};
ghost use Rattle.roll.specs.Rule.{IsKeeper, rows_of};
ghost use Rattle.workers.specs.Noting.{IsBooked};
ghost use Rattle.workers.specs.Opening.{IsInUse, IsNameOf, IsNotInUse, IsWhyNotOpened, HasNoCall};
ghost use Rattle.workers.specs.Seats.{AreAllInOrder, AreEmpty};

use crate::book::Book;
use crate::deeds::{Deed, Register};
use crate::entry::Entry;
use crate::handed::Handed;
use crate::locked::{Creating, Locked};
use crate::marks::{Assuring, Marked, Marks};
use crate::naming::Naming;
use crate::operator::Operator;
use crate::seat::{Seat, seat_of};
use crate::shared::Shared;
use arena::{SLOTS, SlotId};
use notes::Notes;
use persist::Change;
use roll::{Roll, Token};
use session::Session;
use std::alloc::{AllocError, Global};
use std::marker::Model;
use std::sync::Mutex;
use witness::{Mark, Teller};
use words::{Client, Refusal};

/// A session that is about to be shared, which has no name yet.
#[derive(Drop)]
pub struct Opened {
    session: Session,
    roll: Roll<Entry>,
    keeper: Token<Entry>,
    deeds: Roll<Deed>,
    register: Register,
    marks: Teller<Session>,
}

impl Model for Opened {
    ghost use Rattle.std.specs.Prelude.{◌≡◌, [], None};
    ghost use Rattle.roll.specs.Rule.{IsKeeper};
    ghost use Rattle.workers.specs.Naming.{no_table};
    ghost use Rattle.workers.specs.Opening.{IsNotInUse, Unnamed};

    ghost Value = { Unnamed };

    ghost view = { λ o. record {
      roll = record { lists = o.roll; deeds = o.deeds; changes = None; marks = o.marks.row; assured = no_table };
      session = o.session;
    } };

    ghost invariant = { λ o. IsKeeper o.roll [] o.keeper × IsNotInUse o.session.broker
        × IsKeeper o.deeds [] o.register.keeper
        × (o.marks.entries ≡ []) };
}

/// Why a session is not shared; it is handed back.
#[derive(Drop)]
pub struct NotOpened {
    // The session stands first, as in `Opened`: where one is moved to either, LLVM (22) splits its eleven thousand bytes
    // at every offset of both, and takes minutes, or does not end.
    pub session: Session,
    pub refusal: Refusal,
}

/// Whether a client has a call under way in the queue of this slot.
fn has_call(session: &Session, queue: SlotId) -> bool
    ensures busy { result ≡ true → IsInUse session.now.broker }
    ensures idle { result ≡ false → HasNoCall session.now.broker queue.0 }
{
    for client in 0..session.broker().clients() {
        if let Ok(Some(_)) = session.broker().calling(queue, Client(client as u8)) {
            return true;
        }
    }
    false
}

/// Whether a client has a call under way, or a creation is. Such a session is not shared.
pub fn is_in_use(session: &Session) -> bool
    ensures busy { result ≡ true → IsInUse session.now.broker }
    ensures idle { result ≡ false → IsNotInUse session.now.broker }
{
    if session.broker().is_creating() {
        return true;
    }
    for slot in 0..SLOTS {
        if has_call(session, SlotId(slot as u8)) {
            return true;
        }
    }
    false
}

/// A roll of what is done, with nothing done yet.
fn registered(alloc: Global) -> Result<(Roll<Deed>, Register), AllocError>
    ensures { IfOk result (λ r. IsKeeper r.0 [] r.1.keeper) }
{
    let mut row = Vec::new(alloc);
    row.reserve(1)?;
    let (roll, keeper) = Roll::open(alloc)?;
    Ok((roll, Register::new(keeper, row)))
}

/// A seat for each client, in client order, which remembers no call yet.
fn given_seats<J: Naming>(
    alloc: Global,
    roll: &Roll<Entry>,
    keeper: &mut Token<Entry>,
    clients: u32,
) -> Result<Vec<Seat<J>>, AllocError>
    requires lists { roll.now ≡ J.roll.lists }
    requires few { clients ≤ 256 }
    requires keeper { IsKeeper roll.now [] keeper.old }
    ensures keeper { OnOk result (IsKeeper roll.now (rows_of keeper.new) keeper.new) }
    ensures rows { OnOk result (length (rows_of keeper.new) ≡ clients) }
    ensures unwritten { OnOk result (AreEmpty (λ row. row) (rows_of keeper.new)) }
    ensures order { IfOk result (λ seats. AreAllInOrder (λ seat. seat.client) clients seats.items) }
    ensures empty { IfOk result (λ seats. AreEmpty (λ seat. seat.list.items) seats.items) }
{
    let mut seats = Vec::new(alloc);
    seats.reserve(clients as usize)?;
    for client in 0..clients {
        let list = Vec::new(alloc);
        let token = roll.enroll(keeper, &list);
        seats.push_reserved(seat_of(Client(client as u8), list, token));
    }
    Ok(seats)
}

impl Opened {
    /// Opens a session to threads, before it is named. It is refused, in this order, where a client has a call under
    /// way or a creation is (Busy), and for want of memory (NoMemory).
    pub fn new(alloc: Global, session: Session) -> Result<Opened, NotOpened>
        ensures session { IfOk result (λ opened. opened.session ≡ session) }
        ensures quiet { OnOk result (IsNotInUse session.broker) }
        ensures back { IfErr result (λ not. not.session ≡ session) }
        ensures errors { IfErr result (λ not. IsWhyNotOpened session.broker not.refusal) }
    {
        if is_in_use(&session) {
            return Err(NotOpened {
                refusal: Refusal::Busy,
                session,
            });
        }
        match (Roll::open(alloc), registered(alloc), Teller::open(alloc)) {
            (Ok((roll, keeper)), Ok((deeds, register)), Ok(marks)) => Ok(Opened {
                session,
                roll,
                keeper,
                deeds,
                register,
                marks,
            }),
            _ => Err(NotOpened {
                refusal: Refusal::NoMemory,
                session,
            }),
        }
    }

    /// It, where changes of kept words are to be noted. It is refused for want of memory (NoMemory).
    pub fn noting(self, alloc: Global) -> Result<Noting, NotOpened>
        ensures session { IfOk result (λ noting. noting.session ≡ self.session) }
        ensures errors { IfErr result (λ not. (not.refusal ≡ Refusal.NoMemory) × (not.session ≡ self.session)) }
    {
        match (Roll::open(alloc), Teller::open(alloc)) {
            (Ok((changes, keeper)), Ok(assured)) => Ok(Noting {
                opened: self,
                changes,
                keeper,
                assured,
            }),
            _ => Err(NotOpened {
                refusal: Refusal::NoMemory,
                session: self.session,
            }),
        }
    }

    /// The shared session under its name, a seat for each client, in client order, which remembers no call yet, and the
    /// operator, who has stopped nothing yet. It is refused for want of memory (NoMemory). The name is one that the
    /// caller's caller picked for this value.
    pub fn named<J: Naming>(
        self,
        alloc: Global,
    ) -> Result<(Shared<J>, Vec<Seat<J>>, Operator<J>), NotOpened>
        requires name { IsNameOf J.roll J.clients J.first self }
        ensures order { IfOk result (λ r. AreAllInOrder (λ seat. seat.client) J.clients r.1.items) }
        ensures empty { IfOk result (λ r. AreEmpty (λ seat. seat.list.items) r.1.items) }
        ensures operator { IfOk result (λ r. r.2 ≡ []) }
        ensures errors { IfErr result (λ not. (not.refusal ≡ Refusal.NoMemory) × (not.session ≡ self.session)) }
    {
        match self.shared(alloc, None) {
            Ok((shared, seats, operator, _first)) => Ok((shared, seats, operator)),
            Err(not) => Err(not),
        }
    }

    /// It, with this book, and a mark of the first session.
    fn shared<J: Naming>(
        self,
        alloc: Global,
        book: Option<Book>,
    ) -> Result<(Shared<J>, Vec<Seat<J>>, Operator<J>, Marked<J>), NotOpened>
        requires lists { self.roll.lists ≡ J.roll.lists }
        requires deeds { self.roll.deeds ≡ J.roll.deeds }
        requires marks { self.roll.marks ≡ J.roll.marks }
        requires clients { self.session.broker.counts.clients ≡ J.clients }
        requires first { self.session ≡ J.first }
        requires book { IsBooked J.roll.changes J.first.broker.words.kept self.session.broker Creating.Nothing book }
        ensures order { IfOk result (λ r. AreAllInOrder (λ seat. seat.client) J.clients r.1.items) }
        ensures empty { IfOk result (λ r. AreEmpty (λ seat. seat.list.items) r.1.items) }
        ensures operator { IfOk result (λ r. r.2 ≡ []) }
        ensures mark { IfOk result (λ r. r.3 ≡ J.first) }
        ensures errors { IfErr result (λ not. (not.refusal ≡ Refusal.NoMemory) × (not.session ≡ self.session)) }
    {
        let Opened {
            session,
            roll,
            mut keeper,
            deeds,
            mut register,
            marks,
        } = self;
        let Ok(seats) = given_seats(alloc, &roll, &mut keeper, session.broker().clients()) else {
            return Err(NotOpened {
                refusal: Refusal::NoMemory,
                session,
            });
        };
        let operator = register.appoint(&deeds);
        let mut marks = Marks::new(marks);
        let first = marks.mark(&session);
        let locked = Mutex::new(Locked::new(session, keeper, register, book, marks));
        let shared = Shared {
            roll,
            deeds,
            locked,
        };
        Ok((shared, seats, operator, first))
    }
}

/// A session that is about to be shared, and whose changes of kept words are to be noted. It has no name yet.
#[derive(Drop)]
pub struct Noting {
    opened: Opened,
    changes: Roll<Change>,
    keeper: Token<Change>,
    assured: Teller<Mark<Session>>,
}

impl Model for Noting {
    ghost use Rattle.std.specs.Prelude.{◌≡◌, [], Some};
    ghost use Rattle.roll.specs.Rule.{IsKeeper};
    ghost use Rattle.workers.specs.Opening.{Unnamed};

    ghost Value = { Unnamed };

    ghost view = { λ o. record {
      roll = record {
        lists = o.opened.roll.lists;
        deeds = o.opened.roll.deeds;
        changes = Some o.changes;
        marks = o.opened.roll.marks;
        assured = o.assured.row;
      };
      session = o.opened.session;
    } };

    ghost invariant = { λ o. IsKeeper o.changes [] o.keeper × (o.assured.entries ≡ []) };
}

impl Noting {
    /// As [`Opened::named`], with the one who hands the changes on, and who has handed on none yet.
    pub fn named<J: Naming>(
        self,
        alloc: Global,
    ) -> Result<(Shared<J>, Vec<Seat<J>>, Operator<J>, Handed<J>), NotOpened>
        requires name { IsNameOf J.roll J.clients J.first self }
        ensures order { IfOk result (λ r. AreAllInOrder (λ seat. seat.client) J.clients r.1.items) }
        ensures empty { IfOk result (λ r. AreEmpty (λ seat. seat.list.items) r.1.items) }
        ensures operator { IfOk result (λ r. r.2 ≡ []) }
        ensures handed { IfOk result (λ r. r.3 ≡ record { changes = []; last = J.first; assured = [] }) }
        ensures errors { IfErr result (λ not. (not.refusal ≡ Refusal.NoMemory) × (not.session ≡ self.session)) }
    {
        let Noting {
            opened,
            changes,
            mut keeper,
            assured,
        } = self;
        let holder = changes.enroll(&mut keeper, &Vec::new(alloc));
        let book = Book {
            roll: changes,
            keeper,
            notes: Notes::new(alloc),
        };
        match opened.shared(alloc, Some(book)) {
            Ok((shared, seats, operator, first)) => {
                Ok((
                    shared,
                    seats,
                    operator,
                    Handed::new(holder, first, Assuring::new(assured)),
                ))
            }
            Err(not) => Err(not),
        }
    }
}
