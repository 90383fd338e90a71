//! The recording as a page: one HTML file with a picture, a lane for each client and a bar for each call.

use answers::Answer;
use events::Order;
use findings::{Lack, Witness};
use prefixes::{Prefix, prefix_of};
use recording::{Act, Recording, Said, shown};
use std::alloc::{AllocError, Global};
use std::fmt::Write;

/// What the page says of itself, and how it is drawn, in light and in dark.
const HEAD: &str = "<!DOCTYPE html>
<html lang=\"en\">
<head>
<meta charset=\"utf-8\">
<title>A recording and its order</title>
<style>
:root { --paper: #fdfdfb; --ink: #22262b; --faint: #646b74; --line: #e4e4de; --put: #a9c8ec; --take: #a9d8b0;
  --open: #ecece6; --effect: #22262b; --crash: #d64541; --named: #d64541 }
@media (prefers-color-scheme: dark) { :root { --paper: #16191d; --ink: #e8e8e3; --faint: #a2a8b0; --line: #2b3036;
  --put: #2f5580; --take: #2e6a3c; --open: #262b31; --effect: #e8e8e3; --crash: #ff6b66; --named: #ff6b66 } }
body { background: var(--paper); color: var(--ink); font: 15px/1.5 system-ui, sans-serif; margin: 2em }
h1 { font-size: 1.4em; margin: 0 0 .2em }
p { color: var(--faint); max-width: 60em }
.key span { color: var(--ink); padding: .1em .6em; margin-right: .4em; border-radius: 4px }
.key .put { background: var(--put) }
.key .take { background: var(--take) }
.key .open { background: var(--open); border: 1px dashed var(--faint) }
pre { font: 13px/1.45 ui-monospace, monospace; overflow-x: auto }
figure { margin: 0; overflow-x: auto; display: flex }
figure svg { flex: none }
.names { position: sticky; left: 0; background: var(--paper) }
a { color: var(--ink) }
svg text { fill: var(--ink); font: 11px ui-monospace, monospace }
svg .label { font: 12px system-ui, sans-serif; fill: var(--faint) }
svg .line { text-anchor: middle; fill: var(--faint); font-size: 9px }
svg .rule { stroke: var(--line) }
svg .put { fill: var(--put) }
svg .take { fill: var(--take) }
svg .open { fill: var(--open); stroke: var(--faint); stroke-dasharray: 3 2 }
svg .named { stroke: var(--named); stroke-width: 3 }
svg .crash { stroke: var(--crash); stroke-width: 2; stroke-dasharray: 6 3 }
svg .limit { stroke: var(--named); stroke-width: 2 }
svg .effect { fill: var(--effect) }
</style>
</head>
<body>
<h1>A recording and its order</h1>
";

/// Leads to the line from which on there is no order.
const TO_THE_LIMIT: &str =
    "<p><a href=\"#limit\">To the line from which on there is no order</a></p>\n";

/// What the marks mean.
const LEGEND: &str =
    "<p class=\"key\"><span class=\"put\">put</span><span class=\"take\">take</span><span class=\"open\">no answer</span>
A lane is a client, a bar a call from its begin to its end, over the lines of the recording. A dot is the moment at
which the call takes effect in the order. A broken line across is a crash. Where no order is left, a line across shows
from which line on, and the calls that show it have a thick edge.</p>
";

/// What comes behind the picture.
const FOOT: &str = "</svg></figure>
</body>
</html>
";

/// How wide the names of clients are at least, and a character of one; where the first step is drawn; how wide a step,
/// and how high a lane.
const NAMES: usize = 100;

const CHARACTER: usize = 7;

const FIRST: usize = 120;

const STEP: usize = 38;

const LANE: usize = 34;

/// How far down the lanes begin.
const TOP: usize = 22;

/// A page that is put together.
#[derive(Drop)]
struct Page<'a> {
    alloc: Global,
    recording: &'a Recording,
    /// For each call one more than the step at which it ends.
    ends: Vec<usize>,
    /// Whether the call is answered.
    answered: Vec<bool>,
    /// Whether the witness names the call.
    named: Vec<bool>,
    text: String,
}

/// So many copies of no.
fn noes(alloc: Global, count: usize) -> Result<Vec<bool>, AllocError> {
    let mut noes = Vec::with_capacity(alloc, count)?;
    for _ in 0..count {
        noes.push(false)?;
    }
    Ok(noes)
}

/// Where a step is drawn.
fn across(step: usize) -> usize {
    FIRST.saturating_add(step.saturating_mul(STEP))
}

/// Where the lane of a client is drawn.
fn down(client: usize) -> usize {
    TOP.saturating_add(client.saturating_mul(LANE))
}

impl<'a> Page<'a> {
    fn new(alloc: Global, recording: &'a Recording) -> Result<Self, AllocError> {
        let count = recording.calls.len();
        let mut ends = Vec::with_capacity(alloc, count)?;
        for _ in 0..count {
            ends.push(0usize)?;
        }
        Ok(Page {
            alloc,
            recording,
            ends,
            answered: noes(alloc, count)?,
            named: noes(alloc, count)?,
            text: String::from_str(alloc, HEAD)?,
        })
    }

    /// Adds text whose marks are no marks of the page.
    fn escaped(&mut self, text: &str) -> Result<(), AllocError> {
        for character in text.chars() {
            match character {
                '&' => self.text.push_str("&amp;")?,
                '<' => self.text.push_str("&lt;")?,
                '>' => self.text.push_str("&gt;")?,
                '"' => self.text.push_str("&quot;")?,
                other => self.text.push(other)?,
            }
        }
        Ok(())
    }

    fn end(&mut self, call: usize, step: usize, is_answered: bool) {
        if let Some(end) = self.ends.get_mut(call) {
            if *end == 0 {
                *end = step.saturating_add(1);
            }
        }
        if let Some(answered) = self.answered.get_mut(call) {
            *answered = *answered || is_answered;
        }
    }

    /// Finds where each call ends.
    fn find_ends(&mut self) {
        let mut open = 0usize;
        for (step, of) in self.recording.steps.iter().enumerate() {
            match of.act {
                Act::Answer(call, _) | Act::Refuse(call) => self.end(call, step, true),
                Act::Crash => {
                    let begun = self.begun(step);
                    for call in open..begun {
                        self.end(call, step, false);
                    }
                    open = begun;
                }
                _ => {}
            }
        }
    }

    /// How many calls have begun by a step: calls are numbered as they begin.
    fn begun(&self, step: usize) -> usize {
        let mut count = 0usize;
        for number in (0..step.min(self.recording.steps.len())).rev() {
            if let Act::Begin(call) = self.recording.steps[number].act {
                count = call.saturating_add(1);
                break;
            }
        }
        count
    }

    fn name(&mut self, prefix: &Prefix, place: usize) {
        if let Some(call) = prefix.call_at(self.recording, place) {
            if let Some(named) = self.named.get_mut(call) {
                *named = true;
            }
        }
    }

    fn name_lack(&mut self, prefix: &Prefix, lack: &Lack) {
        match lack {
            Lack::Late { put, take } => {
                self.name(prefix, *put);
                self.name(prefix, *take);
            }
            Lack::Few { puts, takes, .. } => {
                for place in puts {
                    self.name(prefix, *place);
                }
                for place in takes {
                    self.name(prefix, *place);
                }
            }
        }
    }

    /// Notes which calls a witness names.
    fn name_all(&mut self, prefix: &Prefix, witness: &Witness) {
        match witness {
            Witness::Invented { take, .. } => self.name(prefix, *take),
            Witness::Twice { first, second, .. } => {
                self.name(prefix, *first);
                self.name(prefix, *second);
            }
            Witness::PassedOver {
                take,
                put,
                lack,
                ..
            } => {
                self.name(prefix, *take);
                self.name(prefix, *put);
                self.name_lack(prefix, lack);
            }
            Witness::NotEmpty { take, pieces, .. } => {
                self.name(prefix, *take);
                for piece in pieces {
                    self.name_lack(prefix, &piece.lack);
                }
            }
        }
    }

    /// The value of this number, as it is shown.
    fn shown_value(&self, value: usize) -> Result<String, AllocError> {
        match self.recording.values.get_index(value) {
            Some(text) => shown(self.alloc, text.as_str()),
            None => Ok(String::new(self.alloc)),
        }
    }

    fn value(&mut self, value: usize) -> Result<(), AllocError> {
        let text = self.shown_value(value)?;
        self.escaped(text.as_str())
    }

    /// The name of a client.
    fn name_of(&mut self, client: usize, json: &str) -> Result<(), AllocError> {
        let y = down(client);
        let middle = y.saturating_add(19);
        write!(
            self.text,
            "<line class=\"rule\" x1=\"0\" x2=\"100%\" y1=\"{y}\" y2=\"{y}\"/>\n\
             <text class=\"label\" x=\"0\" y=\"{middle}\">"
        )?;
        let text = shown(self.alloc, json)?;
        self.escaped(text.as_str())?;
        self.text.push_str("</text>\n")
    }

    /// How wide the names of the clients are.
    fn names_width(&self) -> Result<usize, AllocError> {
        let mut longest = 0usize;
        for json in self.recording.clients.iter() {
            longest = longest.max(shown(self.alloc, json.as_str())?.chars().count());
        }
        Ok(
            longest
                .saturating_mul(CHARACTER)
                .saturating_add(8)
                .max(NAMES),
        )
    }

    /// The names of the clients, which stay where they are while the rest is scrolled.
    fn names(&mut self, high: usize) -> Result<(), AllocError> {
        let wide = self.names_width()?;
        write!(
            self.text,
            "<svg class=\"names\" width=\"{wide}\" height=\"{high}\">\n"
        )?;
        for (client, json) in self.recording.clients.iter().enumerate() {
            self.name_of(client, json.as_str())?;
        }
        self.text.push_str("</svg>\n")
    }

    /// The lanes of the clients.
    fn lanes(&mut self, wide: usize) -> Result<(), AllocError> {
        for client in 0..self.recording.clients.len() {
            let y = down(client);
            write!(
                self.text,
                "<line class=\"rule\" x1=\"{NAMES}\" x2=\"{wide}\" y1=\"{y}\" y2=\"{y}\"/>\n"
            )?;
        }
        Ok(())
    }

    /// A line across all lanes.
    fn line_across(&mut self, class: &str, step: usize) -> Result<(), AllocError> {
        let x = across(step);
        let low = down(self.recording.clients.len());
        let id = if class == "limit" {
            " id=\"limit\""
        } else {
            ""
        };
        write!(
            self.text,
            "<line class=\"{class}\"{id} x1=\"{x}\" x2=\"{x}\" y1=\"14\" y2=\"{low}\"/>\n"
        )
    }

    /// What a call was answered.
    fn answer(&mut self, call: usize) -> Result<(), AllocError> {
        let end = self.ends.get(call).copied().unwrap_or(0).wrapping_sub(1);
        let act = self.recording.steps.get(end).copied().map(|step| step.act);
        match act {
            Some(Act::Answer(_, Said::Got(value))) => {
                self.text.push_str(" got ")?;
                self.value(value)
            }
            Some(Act::Answer(_, Said::Empty)) => self.text.push_str(" empty"),
            Some(Act::Refuse(_)) => self.text.push_str(" refused"),
            _ => Ok(()),
        }
    }

    /// What a bar says.
    fn words(&mut self, call: usize) -> Result<(), AllocError> {
        match self
            .recording
            .calls
            .get(call)
            .copied()
            .and_then(|of| of.puts)
        {
            Some(value) => {
                self.text.push_str("put ")?;
                self.value(value)?;
            }
            None => self.text.push_str("take")?,
        }
        self.answer(call)
    }

    /// The same in fewer words, and the value that comes behind them.
    fn in_short(&self, call: usize) -> (&'static str, Option<usize>) {
        let puts = self
            .recording
            .calls
            .get(call)
            .copied()
            .and_then(|of| of.puts);
        let end = self.ends.get(call).copied().unwrap_or(0).wrapping_sub(1);
        let act = self.recording.steps.get(end).copied().map(|step| step.act);
        match (puts, act) {
            (Some(value), _) => ("put ", Some(value)),
            (None, Some(Act::Answer(_, Said::Got(value)))) => ("got ", Some(value)),
            (None, Some(Act::Answer(_, Said::Empty))) => ("empty", None),
            _ => ("take", None),
        }
    }

    /// What stands in a bar that is so wide: these words, or the value alone, or dots where there is no room for it.
    fn label(&mut self, call: usize, width: usize) -> Result<(), AllocError> {
        let (words, value) = self.in_short(call);
        let text = match value {
            Some(value) => self.shown_value(value)?,
            None => String::new(self.alloc),
        };
        let room = width.saturating_sub(4).saturating_mul(10) / 67;
        let count = text.chars().count();
        if words.len().saturating_add(count) <= room {
            self.text.push_str(words)?;
            self.escaped(text.as_str())
        } else if value.is_some() && count <= room {
            self.escaped(text.as_str())
        } else {
            self.text.push('…')
        }
    }

    /// The bar of a call that begins at a step.
    fn bar(&mut self, call: usize, step: usize) -> Result<(), AllocError> {
        let Some(of) = self.recording.calls.get(call).copied() else {
            return Ok(());
        };
        let end = match self.ends.get(call).copied().unwrap_or(0) {
            0 => self.recording.steps.len(),
            end => end.wrapping_sub(1),
        };
        let x = across(step);
        let width = across(end).saturating_sub(x).max(8);
        let y = down(of.client).saturating_add(5);
        let kind = if of.puts.is_some() { "put" } else { "take" };
        let is_answered = self.answered.get(call).copied().unwrap_or(false);
        let open = if is_answered { "" } else { " open" };
        let is_named = self.named.get(call).copied().unwrap_or(false);
        let named = if is_named { " named" } else { "" };
        write!(
            self.text,
            "<rect class=\"{kind}{open}{named}\" x=\"{x}\" y=\"{y}\" width=\"{width}\" height=\"24\" rx=\"4\"><title>"
        )?;
        self.words(call)?;
        write!(
            self.text,
            "</title></rect>\n<svg x=\"{x}\" y=\"{y}\" width=\"{width}\" height=\"24\"><text x=\"4\" y=\"20\">"
        )?;
        self.label(call, width)?;
        self.text.push_str("</text></svg>\n")
    }

    fn bars(&mut self) -> Result<(), AllocError> {
        for (step, of) in self.recording.steps.iter().enumerate() {
            match of.act {
                Act::Begin(call) => self.bar(call, step)?,
                Act::Crash => self.line_across("crash", step)?,
                _ => {}
            }
            let line = of.line;
            let x = across(step);
            write!(
                self.text,
                "<text class=\"line\" x=\"{x}\" y=\"10\">{line}</text>\n"
            )?;
        }
        Ok(())
    }

    /// The moments at which the calls of an order take effect.
    fn effects(&mut self, prefix: &Prefix, order: &Order) -> Result<(), AllocError> {
        let mut moment = 0usize;
        let mut count = 0usize;
        for entry in order.entries.as_slice() {
            count = if entry.place > moment {
                0
            } else {
                count.saturating_add(1)
            };
            moment = moment.max(entry.place);
            let (Some(call), Some(step)) = (
                prefix.call_at(self.recording, entry.place),
                prefix.step_of.get(moment).copied(),
            ) else {
                continue;
            };
            let client = self
                .recording
                .calls
                .get(call)
                .copied()
                .map_or(0, |of| of.client);
            let x = across(step)
                .saturating_add(6)
                .saturating_add(count.min(4).saturating_mul(4));
            let y = down(client).saturating_add(11);
            write!(
                self.text,
                "<circle class=\"effect\" cx=\"{x}\" cy=\"{y}\" r=\"3\"/>\n"
            )?;
        }
        Ok(())
    }

    fn picture(&mut self) -> Result<(), AllocError> {
        let end = across(self.recording.steps.len().saturating_add(1));
        let wide = end.saturating_sub(NAMES);
        let high = down(self.recording.clients.len()).saturating_add(4);
        self.text.push_str("<figure>")?;
        self.names(high)?;
        write!(
            self.text,
            "<svg width=\"{wide}\" height=\"{high}\" viewBox=\"{NAMES} 0 {wide} {high}\" role=\"img\">\n"
        )?;
        self.lanes(end)?;
        self.bars()
    }

    /// The picture, with what the answer says.
    fn judged(&mut self, answer: &Answer) -> Result<(), AllocError> {
        match answer {
            Answer::Explained(prefix, order) => {
                self.picture()?;
                self.effects(prefix, order)
            }
            Answer::Impossible(prefix, witness, before) => {
                self.name_all(prefix, witness);
                self.picture()?;
                let last = prefix.count.saturating_sub(1);
                self.effects(&prefix_of(self.alloc, self.recording, last)?, before)?;
                self.line_across("limit", last)
            }
            Answer::SomeOrder | Answer::NoOrder => self.picture(),
        }
    }

    /// The whole page.
    fn write(&mut self, answer: &Answer, verdict: &str) -> Result<(), AllocError> {
        self.text.push_str("<pre>")?;
        self.escaped(verdict)?;
        self.text.push_str("</pre>\n")?;
        if let Answer::Impossible(..) = answer {
            self.text.push_str(TO_THE_LIMIT)?;
        }
        self.text.push_str(LEGEND)?;
        self.judged(answer)?;
        self.text.push_str(FOOT)
    }
}

/// The page of a recording, with what the verdict says.
pub fn page_of(
    alloc: Global,
    recording: &Recording,
    answer: &Answer,
    verdict: &str,
) -> Result<String, AllocError> {
    let mut page = Page::new(alloc, recording)?;
    page.find_ends();
    page.write(answer, verdict)?;
    Ok(page.text)
}
