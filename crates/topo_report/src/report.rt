//! The report of a life. Lists in ascending order of life are merged in one pass, which can cut the greatest lives.

ghost use Rattle.std.specs.Prelude.{◌≡◌, ◌≤◌, [], ◌∷◌, ◌++◌, length, MatchOption, OnOk, OnErr, IfOk};
ghost use Rattle.an_base.specs.Order.{LivesRise};
ghost use Rattle.an_base.specs.declared.limits.TheConstants.{MOST_SWITCHES};
ghost use Rattle.topo_report.specs.Report.{lesser_entry, report_of};
ghost use Rattle.topo_report.specs.Inside.{TakesFirst};

use an_base::entry::{Entries, Entry};
use an_base::life::Life;
use an_base::limits::MOST_SWITCHES;
use common_values::memory::OutOfMemory;
use std::alloc::Global;
use std::cmp::Ordering;
use std::marker::Model;

/// The largest number of entries that a report keeps of lives other than its own: `MOST_SWITCHES` less one.
pub const MOST_OTHERS: usize = 125;

// The lesser of two entries of one life.
fn lesser<'a>(one: &'a Entry, other: &'a Entry) -> &'a Entry
    ensures { result.now ≡ lesser_entry one.now other.now }
{
    if other.compare(one) == Ordering::Less {
        other
    } else {
        one
    }
}

// The first life of two lists in ascending order of life: its least entry, and the rest of both lists.
fn take_first<'a>(
    mine: &'a [Entry],
    heard: &'a [Entry],
) -> Option<(&'a Entry, &'a [Entry], &'a [Entry])>
    requires mine { LivesRise mine.now }
    requires heard { LivesRise heard.now }
    ensures { MatchOption result (mine.now ++ heard.now ≡ [])
        (λ (entry, mine_left, heard_left).
        TakesFirst mine.now heard.now entry.now mine_left.now heard_left.now) }
{
    match (mine.split_first(), heard.split_first()) {
        (None, None) => None,
        (Some((entry, left)), None) => Some((entry, left, heard)),
        (None, Some((entry, left))) => Some((entry, mine, left)),
        (Some((one, mine_left)), Some((other, heard_left))) => {
            match one.life.cmp(&other.life) {
                Ordering::Less => Some((one, mine_left, heard)),
                Ordering::Equal => Some((lesser(one, other), mine_left, heard_left)),
                Ordering::Greater => Some((other, mine, heard_left)),
            }
        }
    }
}

// The entries of the report of a life, from two lists in ascending order of life.
fn merged<'a>(
    alloc: Global,
    me: Life,
    mut mine: &'a [Entry],
    mut heard: &'a [Entry],
) -> Result<Vec<Entry>, OutOfMemory>
    requires mine { LivesRise mine.now }
    requires heard { LivesRise heard.now }
    requires mine_most { length mine.now ≤ MOST_SWITCHES }
    requires heard_most { length heard.now ≤ MOST_SWITCHES }
    ensures { IfOk result (λ items. items.items ≡ report_of me (mine.now ++ heard.now)) }
{
    let most = MOST_SWITCHES.min(mine.len() + heard.len());
    let mut items = Vec::with_capacity(alloc, most)?;
    let mut room = MOST_OTHERS;
    'lives: while let Some((entry, mine_left, heard_left)) = take_first(mine, heard) {
        if entry.life == me {
            items.push(entry.copy())?;
        } else if room > 0 {
            items.push(entry.copy())?;
            room -= 1;
        }
        mine = mine_left;
        heard = heard_left;
    }
    Ok(items)
}

/// The least entry of each life that a life has heard of, in ascending order of life.
///
/// Of more than 126 lives, it keeps that life itself and the 125 least others.
#[derive(Drop)]
pub struct Report {
    me: Life,
    entries: Entries,
    alloc: Global,
}

impl Model for Report {
    ghost use Rattle.topo_report.specs.Report.{ReportOf};

    ghost Value = { ReportOf };

    ghost view = { λ r. record { me = r.me; entries = r.entries } };
}

impl Report {
    /// Creates the report, for the life of `entry`, that has only this entry. It keeps `alloc` for the merges.
    ///
    /// # Errors
    /// `OutOfMemory` if the allocation fails.
    pub fn of(alloc: Global, entry: Entry) -> Result<Report, OutOfMemory>
        ensures { IfOk result (λ report. report ≡ record { me = entry.life; entries = entry ∷ [] }) }
    {
        let me = entry.life;
        let entries = Entries::of(alloc, entry)?;
        Ok(Report { me, entries, alloc })
    }

    /// Merges `other` into the report, keeping the least entry of each life.
    ///
    /// Of more than 126 lives, it keeps the life that the report was made for and the 125 least others.
    ///
    /// # Errors
    /// `OutOfMemory` if an allocation fails. The report is then unchanged.
    pub fn merge(&mut self, other: &Entries) -> Result<(), OutOfMemory>
        ensures ok { OnOk result (self.new
            ≡ record self.old { entries = report_of self.old.me (self.old.entries ++ other.now) }) }
        ensures err { OnErr result (self.new ≡ self.old) }
    {
        let mine = self.entries.as_slice();
        let items = merged(self.alloc, self.me, mine, other.as_slice())?;
        self.entries = Entries::new(items);
        Ok(())
    }

    /// Returns the entries of the report, in ascending order of life.
    pub fn entries(&self) -> &Entries
        ensures { result.now ≡ self.now.entries }
    {
        &self.entries
    }

    /// Returns the entries of the report, in ascending order of life, without allocating.
    pub fn into_entries(self) -> Entries
        ensures { result ≡ self.entries }
    {
        self.entries
    }
}
