//! What both pages are drawn with: columns in a frame of their own, whose heads and names stay in sight.

use crate::frames::{Differs, Frame};
use crate::texts::{Brief, Named, Spelt, shortened};
use arena::Layout;
use std::alloc::{AllocError, Global};
use std::fmt::Write;

/// How the pages look, in light and in dark.
const STYLE: &str = "<style>
:root { --paper: #fdfdfb; --ink: #22262b; --faint: #646b74; --line: #e4e4de; --bar: #4a7ab5; --none: #ecece6;
  --open: #f3cf8e; --done: #a9d8b0; --bad: #d64541; --differs: #efe3f6; --lost: #f6d3d1 }
@media (prefers-color-scheme: dark) { :root { --paper: #16191d; --ink: #e8e8e3; --faint: #a2a8b0; --line: #2b3036;
  --bar: #6f9fd8; --none: #262b31; --open: #7a5a1c; --done: #2e6a3c; --bad: #ff6b66; --differs: #3d2f4a;
  --lost: #5c2b29 } }
body { background: var(--paper); color: var(--ink); font: 15px/1.5 system-ui, sans-serif; margin: 1.5em }
h1 { font-size: 1.4em; margin: 0 0 .2em }
p { margin: 0 0 .6em; color: var(--faint); max-width: 60em }
figure { margin: 0; overflow: auto; max-height: 94vh }
.row { display: flex; width: max-content }
.row svg { flex: none }
.heads { position: sticky; top: 0; z-index: 2; background: var(--paper) }
.names { position: sticky; left: 0; z-index: 1; background: var(--paper) }
svg text { fill: var(--ink); font: 11px ui-monospace, monospace }
svg .label { font: 12px system-ui, sans-serif; fill: var(--faint) }
svg .label tspan { fill: var(--ink) }
svg .number { font-size: 10px; text-anchor: middle }
svg .small { font-size: 9px; text-anchor: middle }
svg .faint { fill: var(--faint) }
svg .rule { stroke: var(--line) }
svg .crash { stroke: var(--bad); stroke-width: 2 }
svg .bar { fill: var(--bar) }
.none { fill: var(--none); background: var(--none) }
.open { fill: var(--open); background: var(--open) }
.done { fill: var(--done); background: var(--done) }
.bad { fill: var(--bad); background: var(--bad) }
.differs { fill: var(--differs); background: var(--differs) }
.lost { fill: var(--lost); background: var(--lost) }
.key span { color: var(--ink); padding: .1em .6em; margin-right: .4em; border-radius: 4px; white-space: nowrap }
</style>
";

/// How wide a column is, and where its middle is.
pub(crate) const COLUMN_WIDTH: u64 = 34;

pub(crate) const MIDDLE: u64 = 17;

/// How wide a character is of a text that is read from below, and how far above the end of its part that begins.
const CHARACTER_WIDTH: u64 = 7;

pub(crate) const TEXT_GAP: u64 = 8;

/// The most characters that are shown of an act.
const MOST_OF_ACT: usize = 44;

/// How high the numbers of columns are, and the row of a word.
const NUMBER_HEIGHT: u64 = 18;

const WORD_HEIGHT: u64 = 26;

/// How large a drawing is.
#[derive(Clone, Copy)]
pub(crate) struct Sheet {
    /// How wide the names at the left are, and all columns.
    pub(crate) names: u64,
    pub(crate) columns: u64,
    /// How high the heads of the columns are, and what stands below them.
    pub(crate) head: u64,
    pub(crate) body: u64,
}

/// Words, ascending, each with a row, the first of which begins so far down.
#[derive(Clone, Copy)]
pub(crate) struct Rows<'a> {
    pub(crate) layout: &'a Layout,
    pub(crate) words: &'a [u64],
    pub(crate) top: u64,
}

impl Rows<'_> {
    /// How far down the row of a word begins.
    pub(crate) fn row_of(&self, word: u64) -> u64 {
        let row = match self.words.binary_search(&word) {
            Ok(row) => row as u64,
            Err(row) => row as u64,
        };
        self.top.saturating_add(row.saturating_mul(WORD_HEIGHT))
    }

    /// How far down the last row ends.
    pub(crate) fn end(&self) -> u64 {
        self.row_of(u64::MAX)
    }

    /// What the label of a word says, beside its number.
    fn name(&self, alloc: Global, word: u64) -> Result<String, AllocError> {
        format!(in alloc; "{}", Named(self.layout, word as usize))
    }

    /// How wide the names are that have so many characters at least.
    pub(crate) fn width(&self, alloc: Global, least: usize) -> Result<u64, AllocError> {
        let mut longest = least;
        for word in self.words {
            let label = format!(in alloc; "{word} {}", self.name(alloc, *word)?)?;
            longest = longest.max(label.len());
        }
        Ok((longest as u64).saturating_mul(13) / 2 + 8)
    }

    /// The numbers and the names of the words.
    pub(crate) fn labels(
        &self,
        alloc: Global,
        text: &mut String,
        width: u64,
    ) -> Result<(), AllocError> {
        for word in self.words {
            let name = self.name(alloc, *word)?;
            let what = format!(in alloc; "<tspan>{word}</tspan> {name}")?;
            write_label(text, width, self.row_of(*word), what.as_str())?;
        }
        Ok(())
    }

    /// The rules above the rows.
    pub(crate) fn rules(&self, text: &mut String, width: u64) -> Result<(), AllocError> {
        for word in self.words {
            write_rule(text, width, self.row_of(*word))?;
        }
        Ok(())
    }

    /// A word in a column: its cached value, and its kept one below.
    pub(crate) fn cell(
        &self,
        alloc: Global,
        text: &mut String,
        place: u64,
        differs: Differs,
        class: &str,
    ) -> Result<(), AllocError> {
        let left = column(place);
        let top = self.row_of(differs.word);
        let name = self.name(alloc, differs.word)?;
        writeln!(
            text,
            "<g transform=\"translate({left},{top})\"><title>{name}: cached {}, kept {}</title>",
            differs.cached, differs.kept
        )?;
        writeln!(
            text,
            "<rect class=\"{class}\" y=\"1\" width=\"{COLUMN_WIDTH}\" height=\"24\"/>"
        )?;
        writeln!(
            text,
            "<text class=\"small\" x=\"{MIDDLE}\" y=\"11\">{}</text>",
            Brief(differs.cached)
        )?;
        writeln!(
            text,
            "<text class=\"small faint\" x=\"{MIDDLE}\" y=\"22\">{}</text></g>",
            Brief(differs.kept)
        )
    }
}

/// Where a column begins.
pub(crate) fn column(place: u64) -> u64 {
    place.saturating_mul(COLUMN_WIDTH)
}

/// The page up to what it says first.
pub(crate) fn begin_page(text: &mut String, title: &str) -> Result<(), AllocError> {
    writeln!(
        text,
        "<!DOCTYPE html>\n<html lang=\"en\">\n<head>\n<meta charset=\"utf-8\">"
    )?;
    writeln!(
        text,
        "<meta name=\"viewport\" content=\"width=device-width\">\n<title>{title}</title>"
    )?;
    writeln!(text, "{STYLE}</head>\n<body>\n<h1>{title}</h1>")
}

/// The frame begins: its heads, and at their left what they are of.
pub(crate) fn begin_head(text: &mut String, sheet: Sheet, what: &str) -> Result<(), AllocError> {
    let high = sheet.head;
    writeln!(
        text,
        "<figure><div class=\"row heads\"><svg class=\"names\" width=\"{}\" height=\"{high}\">",
        sheet.names
    )?;
    let base = high.saturating_sub(TEXT_GAP);
    writeln!(text, "<text class=\"label\" y=\"{base}\">{what}</text>")?;
    begin_columns(text, sheet, high)
}

/// The columns beside names that are so high.
pub(crate) fn begin_columns(text: &mut String, sheet: Sheet, high: u64) -> Result<(), AllocError> {
    writeln!(
        text,
        "</svg>\n<svg width=\"{}\" height=\"{high}\" role=\"img\">",
        sheet.columns
    )
}

/// The heads end, and what stands below them begins with its names.
pub(crate) fn begin_body(text: &mut String, sheet: Sheet) -> Result<(), AllocError> {
    writeln!(
        text,
        "</svg></div>\n<div class=\"row\"><svg class=\"names\" width=\"{}\" height=\"{}\">",
        sheet.names, sheet.body
    )
}

/// The page from the end of its frame on.
pub(crate) fn end_page(text: &mut String) -> Result<(), AllocError> {
    writeln!(text, "</svg></div></figure>\n</body>\n</html>")
}

/// A rule across.
pub(crate) fn write_rule(text: &mut String, width: u64, top: u64) -> Result<(), AllocError> {
    writeln!(
        text,
        "<line class=\"rule\" x2=\"{width}\" y1=\"{top}\" y2=\"{top}\"/>"
    )
}

/// A label at the left, and a rule above it.
pub(crate) fn write_label(
    text: &mut String,
    width: u64,
    top: u64,
    what: &str,
) -> Result<(), AllocError> {
    write_rule(text, width, top)?;
    writeln!(
        text,
        "<text class=\"label\" y=\"{}\">{what}</text>",
        top.saturating_add(18)
    )
}

/// A text that is read from below, in the middle of a column, in the part that ends here. It is cut off behind so many
/// characters, and shown whole where one points at it.
pub(crate) fn write_upright(
    alloc: Global,
    text: &mut String,
    end: u64,
    what: &str,
    most: usize,
) -> Result<(), AllocError> {
    let short = shortened(alloc, what, most)?;
    let end = end.saturating_sub(TEXT_GAP);
    writeln!(
        text,
        "<text transform=\"translate(21,{end}) rotate(-90)\"><title>{what}</title>{short}</text>"
    )
}

/// How high a part is that holds such texts, the longest of which has so many characters.
pub(crate) fn upright_height(longest: usize, most: usize) -> u64 {
    (longest.min(most) as u64)
        .saturating_mul(CHARACTER_WIDTH)
        .saturating_add(2 * TEXT_GAP)
}

/// What the act of a frame did.
fn spelt(alloc: Global, layout: &Layout, frame: &Frame) -> Result<String, AllocError> {
    let act = frame.act;
    let access = frame.made.access;
    format!(in alloc;
        "{}",
        Spelt {
            layout,
            act,
            access
        }
    )
}

/// How high heads are that name the acts of frames.
pub(crate) fn head_height(
    alloc: Global,
    layout: &Layout,
    frames: &[Frame],
) -> Result<u64, AllocError> {
    let mut longest = 8usize;
    for frame in frames {
        longest = longest.max(spelt(alloc, layout, frame)?.chars().count());
    }
    Ok(upright_height(longest, MOST_OF_ACT).saturating_add(NUMBER_HEIGHT))
}

/// What stands above a column: its number, and the act of a frame if there is one.
#[derive(Clone, Copy)]
pub(crate) struct Head<'a> {
    pub(crate) number: u64,
    pub(crate) frame: Option<&'a Frame>,
}

/// The head of a column.
pub(crate) fn write_head(
    alloc: Global,
    text: &mut String,
    sheet: Sheet,
    layout: &Layout,
    place: u64,
    head: Head<'_>,
) -> Result<(), AllocError> {
    let name = match head.frame {
        Some(frame) => spelt(alloc, layout, frame)?,
        None => String::from_str(alloc, "at first")?,
    };
    let left = column(place);
    writeln!(text, "<g transform=\"translate({left},0)\">")?;
    let number = head.number;
    writeln!(
        text,
        "<text class=\"number\" x=\"{MIDDLE}\" y=\"12\">{number}</text>"
    )?;
    write_upright(alloc, text, sheet.head, name.as_str(), MOST_OF_ACT)?;
    writeln!(text, "</g>")
}
