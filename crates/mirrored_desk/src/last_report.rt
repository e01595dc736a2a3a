//! The report that a desk showed last, and its response, which is written again where the same is asked and nothing newer is shown.
ghost use Rattle.std.specs.Prelude.{◌≡◌, ◌⊎◌, IsTrue, IfOk, IfSome, false};
ghost use Rattle.desk_server.specs.declared.responding.Response.TheVariants as response_of;

use desk_server::responding::Response;
use std::alloc::Global;
use stock_model::queries::Query;
use stock_nums::code::Code;
use stock_nums::lines::Lines;
use stock_nums::memory::NoMemory;
use stock_nums::moment::Moment;
use stock_nums::numbers::RecordNo;

/// The longest response that is kept, in bytes: as many as a line may have.
pub(crate) const MAX_KEPT: usize = 65_536;

/// A report that was shown: what it was asked by, how many records it covers, and the response, which doesn't close the connection.
#[derive(Drop)]
pub(crate) struct LastReport {
    pub(crate) query: Query,
    pub(crate) covered: RecordNo,
    pub(crate) response: Lines<u8>,
}

impl LastReport {
    /// Keeps a response, unless it is long or closes the connection. For want of memory nothing is kept.
    pub(crate) fn of(
        alloc: Global,
        query: Query,
        covered: RecordNo,
        response: &Response,
        close: bool,
    ) -> Option<LastReport>
        ensures { IfSome result (λ last. (last.query ≡ query) × (last.covered ≡ covered) × (response.now ≡ response_of.Text last.response) × (close ≡ false)) }
    {
        match response {
            Response::Text(text) if !close && text.len() <= MAX_KEPT => {
                let response = copied(alloc, text.as_slice()).ok()?;
                Some(LastReport {
                    query,
                    covered,
                    response,
                })
            }
            _ => None,
        }
    }

    /// Whether it is the report that is asked for where so many records are covered.
    pub(crate) fn answers(&self, query: &Query, covered: RecordNo) -> bool
        ensures { IsTrue result → (self.now.query ≡ query.now) × (self.now.covered ≡ covered) }
    {
        self.covered == covered && is_same_query(&self.query, query)
    }

    /// Its response once more, or the one for want of memory.
    pub(crate) fn again(&self, alloc: Global) -> Response
        ensures { (result ≡ response_of.Text self.now.response) ⊎ (result ≡ response_of.NoMemory false) }
    {
        match copied(alloc, self.response.as_slice()) {
            Ok(text) => Response::Text(text),
            Err(NoMemory) => Response::NoMemory { close: false },
        }
    }
}

// Whether both ask for the same report.
#[tactic(auto, using(crate::proofs::SameQueries::query_same))]
fn is_same_query(one: &Query, other: &Query) -> bool
    ensures { IsTrue result → (one.now ≡ other.now) }
{
    one.sheet == other.sheet
        && one.need == other.need
        && is_same_until(one.until, other.until)
        && is_same_code(&one.item, &other.item)
        && is_same_code(&one.store, &other.store)
        && one.format == other.format
}

// Whether both ask up to the same moment, or both up to none.
fn is_same_until(one: Option<Moment>, other: Option<Moment>) -> bool
    ensures { IsTrue result → (one ≡ other) }
{
    match (one, other) {
        (None, None) => true,
        (Some(one), Some(other)) => is_same_moment(one, other),
        _ => false,
    }
}

// Whether both are one second of one date.
#[tactic(auto, using(crate::proofs::SameQueries::moment_same))]
fn is_same_moment(one: Moment, other: Moment) -> bool
    ensures { IsTrue result → (one ≡ other) }
{
    one == other
}

// Whether both name the same code, or both none.
fn is_same_code(one: &Option<Code>, other: &Option<Code>) -> bool
    ensures { IsTrue result → (one.now ≡ other.now) }
{
    match (one, other) {
        (None, None) => true,
        (Some(one), Some(other)) => one == other,
        _ => false,
    }
}

// The same bytes.
fn copied(alloc: Global, bytes: &[u8]) -> Result<Lines<u8>, NoMemory>
    ensures { IfOk result (λ copy. copy ≡ bytes.now) }
{
    let mut copy = Vec::new(alloc);
    copy.extend_from_slice(bytes)?;
    Ok(Lines::from_vec(copy))
}
