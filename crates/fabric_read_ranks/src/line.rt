//! The meaning of a line of ranks.

ghost use Rattle.std.specs.Prelude.{◌≡◌, map};
ghost use Rattle.fabric_read_ranks.specs.RankLines.{rank_said, said_by, said_by_four, said_by_two};

use common_lines::word::is;
use fabric_words::digits::{hex_after, number_to};
use fabric_words::ranks_cause::RanksCause;

/// The meaning of a line.
#[derive(Clone, Copy)]
pub enum RankLine {
    /// Nothing: it is blank.
    Nothing,
    /// The head, after which the ranks begin.
    Head,
    /// The rank of a channel: the GUID of its switch, the port, and the rank.
    Rank(u64, u8, u32),
}

/// Returns the meaning of a line with these words.
///
/// # Errors
/// The first reason for which they are not a line of ranks.
pub fn said_by(words: &[&[u8]]) -> Result<RankLine, RanksCause>
    ensures { result ≡ said_by (map (λ w. w.now) words.now) }
{
    match words {
        [] => Ok(RankLine::Nothing),
        [first, second] => said_by_two(first, second),
        [first, guid, port, rank] => said_by_four(first, guid, port, rank),
        _ => Err(RanksCause::UnknownLine),
    }
}

fn said_by_two(first: &[u8], second: &[u8]) -> Result<RankLine, RanksCause>
    ensures { result ≡ said_by_two first.now second.now }
{
    if is(first, "ranks") && is(second, "1") {
        return Ok(RankLine::Head);
    }
    Err(RanksCause::UnknownLine)
}

fn said_by_four(first: &[u8], guid: &[u8], port: &[u8], rank: &[u8]) -> Result<RankLine, RanksCause>
    ensures { result ≡ said_by_four first.now guid.now port.now rank.now }
{
    if is(first, "rank") {
        return rank_said(guid, port, rank);
    }
    Err(RanksCause::UnknownLine)
}

// The rank of a channel.
fn rank_said(guid: &[u8], port: &[u8], rank: &[u8]) -> Result<RankLine, RanksCause>
    ensures { result ≡ rank_said guid.now port.now rank.now }
{
    let Some(guid) = hex_after(guid) else {
        return Err(RanksCause::BadGuid);
    };
    let Some(port) = number_to(port, 255) else {
        return Err(RanksCause::BadPort);
    };
    let Some(rank) = number_to(rank, u64::from(u32::MAX)) else {
        return Err(RanksCause::BadRank);
    };
    Ok(RankLine::Rank(guid, port as u8, rank as u32))
}
