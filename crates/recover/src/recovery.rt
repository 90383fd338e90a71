//! Recovery: its waiting point, and what it has told.

ghost use Rattle.std.specs.Prelude.{◌≡◌, ◌<◌, ◌≤◌, length};
ghost use Rattle.arena.specs.Layout.{size_of};
ghost use Rattle.stepper.specs.Step.{change_by_step, lent_by_step, words_by_step, FindsInRange, IsAskedFor};
ghost use Rattle.recover.specs.Table.{access_of, after_report, boot_recovery, recovery_next, recovery_reached, IsPoint};

use crate::ends::RecoveryLoadHead;
use crate::point::{RecoveryPoint, Report};
use crate::telling::RecoveryLoadAnnouncement;
use arena::Layout;
use persist::{Noted, WordMemory};
use stepper::{After, Resume};
use words::{Client, MAX_CLIENTS, Reports, Told};

/// A recovery under way: what it has told so far, and where it waits. What is told stands beside the point, so that a
/// step copies the point alone.
#[derive(Clone, Copy)]
pub struct Recovery {
    pub(crate) told: Reports,
    pub(crate) at: RecoveryPoint,
}

/// Where the recovery of a queue begins.
pub fn boot() -> Recovery
    ensures { result ≡ boot_recovery }
{
    Recovery {
        told: [Told::None; MAX_CLIENTS],
        at: RecoveryPoint::RecoveryLoadHead(RecoveryLoadHead {}),
    }
}

impl Recovery {
    /// One step: exactly one access. It answers whether the queue is ready now, and each client was told; beside it
    /// stands the change of a kept value, where the access was a fence that made one.
    #[inline(always)]
    pub fn step<M: WordMemory>(&mut self, layout: &Layout, memory: &mut M) -> Noted<bool>
        requires room { size_of layout.now ≤ length (M.words memory.old).cached }
        requires point { IsPoint layout.now self.old.at }
        requires read { let s = layout.now in
            FindsInRange s (access_of s.kind self.old.at) (M.words memory.old) }
        requires asked { let s = layout.now in
            IsAskedFor s (access_of s.kind self.old.at) (M.lent memory.old).request }
        ensures one_access { M.words memory.new
            ≡ words_by_step access_of layout.now self.old.at (M.words memory.old) }
        ensures lent { M.lent memory.new ≡ lent_by_step access_of layout.now self.old.at (M.lent memory.old) }
        ensures next { recovery_reached result.answer self.new
            ≡ recovery_next layout.now self.old (M.words memory.old) }
        ensures change { result.change ≡ change_by_step access_of layout.now self.old.at (M.words memory.old) }
    {
        let stepped = self.at.step(layout, memory);
        let change = stepped.change;
        match stepped.after {
            After::More(at) => {
                self.at = at;
                Noted {
                    answer: false,
                    change,
                }
            }
            After::Done(report) => Noted {
                answer: self.tell(layout, report),
                change,
            },
        }
    }

    /// Notes what a client is told, and goes on with the next one, if there is one. It answers whether there is none.
    fn tell(&mut self, layout: &Layout, report: Report) -> bool
        requires { report.client.0 < layout.now.clients }
        ensures { recovery_reached result self.new ≡ after_report layout.now self.old.told report }
    {
        let Report { client, told } = report;
        let clients = layout.clients();
        self.told[client.0 as usize] = told;
        let next = client.0 + 1;
        if next as u32 >= clients {
            return true;
        }
        self.at = RecoveryPoint::RecoveryLoadAnnouncement(RecoveryLoadAnnouncement {
            client: Client(next),
        });
        false
    }

    /// What it has told.
    pub fn told(&self) -> &Reports
        ensures { result.now ≡ self.now.told }
    {
        &self.told
    }
}
