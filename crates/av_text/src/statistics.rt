// The names of statistics, and of those of which there are distributions.
ghost use Rattle.std.specs.Prelude.{◌≡◌};
ghost use Rattle.av_text.specs.Queries.{statistic_name, statistic_named, statistic_in, stat_kind, dist_kind_named, dist_kind_in};

use crate::{DistKind, Kind};
use av_perm::StatKind;

const STATISTICS: [StatKind; 3] = [StatKind::Inv, StatKind::Des, StatKind::Lrm];

const DIST_KINDS: [DistKind; 2] = [DistKind::Inv, DistKind::Des];

/// The token that names a statistic: `inv`, `des` or `lrm`.
pub fn statistic_name(kind: StatKind) -> &'static [u8]
    ensures { result.now ≡ statistic_name kind }
{
    match kind {
        StatKind::Inv => b"inv",
        StatKind::Des => b"des",
        StatKind::Lrm => b"lrm",
    }
}

/// The statistic that a token names.
fn statistic_named(token: &[u8]) -> Option<StatKind>
    ensures { result ≡ statistic_named token.now }
{
    STATISTICS
        .iter()
        .copied()
        .find(|kind| statistic_name(*kind) == token)
}

/// A statistic. Where none stands, the line has no form of a query.
pub fn statistic_in(token: &[u8]) -> Result<StatKind, Kind>
    ensures { result ≡ statistic_in token.now }
{
    statistic_named(token).ok_or(Kind::UnknownQuery)
}

impl DistKind {
    /// The statistic itself. Its name is that of the kind of distribution.
    pub fn statistic(self) -> StatKind
        ensures { result ≡ stat_kind self }
    {
        match self {
            DistKind::Inv => StatKind::Inv,
            DistKind::Des => StatKind::Des,
        }
    }
}

/// The kind of distribution that a token names.
fn dist_kind_named(token: &[u8]) -> Option<DistKind>
    ensures { result ≡ dist_kind_named token.now }
{
    DIST_KINDS
        .iter()
        .copied()
        .find(|kind| statistic_name(kind.statistic()) == token)
}

/// A kind of distribution. Where none stands, the line has no form of a query.
pub fn dist_kind_in(token: &[u8]) -> Result<DistKind, Kind>
    ensures { result ≡ dist_kind_in token.now }
{
    dist_kind_named(token).ok_or(Kind::UnknownQuery)
}
