//! What a request asks.

ghost use Rattle.scraping.specs.Asked.{Asks, StandsAt};

/// What a request asks.
#[derive(Clone, Copy, Debug, PartialEq, Eq)]
pub enum Asked {
    /// The numbers, as Prometheus reads them.
    Metrics,
    /// The numbers, as JSON.
    Stats,
    /// The page that shows them.
    Page,
    /// What is not there.
    Nothing,
    /// What is there, by a method other than GET.
    NotAllowed,
}

/// What stands at a path.
fn standing_at(path: &[u8]) -> Asked
    ensures { StandsAt path.now result }
{
    if path == b"/metrics".as_slice() {
        Asked::Metrics
    } else if path == b"/stats".as_slice() {
        Asked::Stats
    } else if path == b"/".as_slice() {
        Asked::Page
    } else {
        Asked::Nothing
    }
}

/// What a request of this method and this path asks.
pub fn asked_by(method: &[u8], path: &[u8]) -> Asked
    ensures { Asks method.now path.now result }
{
    let asked = standing_at(path);
    if method == b"GET".as_slice() {
        return asked;
    }
    match asked {
        Asked::Nothing => Asked::Nothing,
        _ => Asked::NotAllowed,
    }
}
