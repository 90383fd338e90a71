//! The values in the order in which they go through the queue, and with them the calls.

use crate::calls::NEVER;
use crate::items::Item;
use crate::ranks::{at, copies, count_below, keys};
use events::Entry;
use std::alloc::{AllocError, Global};
use words::Reply;

/// Values of one block, each list of them by a place: puts and takes by where they begin, and by where they end at the
/// latest; and how far each list was looked at.
#[derive(Drop)]
struct Block {
    by_put: Vec<(usize, usize)>,
    by_take: Vec<(usize, usize)>,
    ins: Vec<(usize, usize)>,
    outs: Vec<(usize, usize)>,
}

fn lists_of(alloc: Global, items: &[Item], numbers: &[usize]) -> Result<Block, AllocError> {
    let mut block = Block {
        by_put: Vec::with_capacity(alloc, numbers.len())?,
        by_take: Vec::with_capacity(alloc, numbers.len())?,
        ins: Vec::with_capacity(alloc, numbers.len())?,
        outs: Vec::with_capacity(alloc, numbers.len())?,
    };
    for number in numbers {
        if let Some(item) = items.get(*number) {
            block.by_put.push((item.put.begin, *number))?;
            block.by_take.push((item.out_from(), *number))?;
            block.ins.push((item.in_by(), *number))?;
            block.outs.push((item.out_by(), *number))?;
        }
    }
    block.by_put.sort()?;
    block.by_take.sort()?;
    block.ins.sort()?;
    block.outs.sort()?;
    Ok(block)
}

/// How far a list goes before the first value that is not gone, and the place of that one.
fn least(list: &[(usize, usize)], from: usize, gone: &[usize]) -> (usize, usize) {
    for number in from..list.len() {
        let pair = list[number];
        if at(gone, pair.1) == 0 {
            return (number, pair.0);
        }
    }
    (list.len(), NEVER)
}

/// Marks the values of a list up to a place, and those that are marked twice by now are ready.
fn mark(
    list: &[(usize, usize)],
    from: usize,
    below: usize,
    marks: &mut Vec<usize>,
    ready: &mut Vec<usize>,
) -> Result<usize, AllocError> {
    for place in from..list.len() {
        let (key, number) = list[place];
        if key >= below && below != NEVER {
            return Ok(place);
        }
        let count = at(marks, number).wrapping_add(1);
        crate::ranks::set(marks, number, count);
        if count == 2 {
            ready.push(number)?;
        }
    }
    Ok(list.len())
}

/// What the search for the order of a block has come to.
#[derive(Drop)]
struct Walk {
    ready: Vec<usize>,
    marked_puts: usize,
    marked_takes: usize,
    first_in: usize,
    first_out: usize,
}

impl Walk {
    /// Looks at the lists again, after one more value is gone.
    fn look(
        &mut self,
        block: &Block,
        gone: &[usize],
        marks: &mut Vec<usize>,
    ) -> Result<(), AllocError> {
        let (first_in, in_by) = least(&block.ins, self.first_in, gone);
        let (first_out, out_by) = least(&block.outs, self.first_out, gone);
        self.first_in = first_in;
        self.first_out = first_out;
        self.marked_puts = mark(
            &block.by_put,
            self.marked_puts,
            in_by,
            marks,
            &mut self.ready,
        )?;
        self.marked_takes = mark(
            &block.by_take,
            self.marked_takes,
            out_by,
            marks,
            &mut self.ready,
        )?;
        Ok(())
    }
}

/// Adds the values of a block in an order in which they can go through the queue, and says whether there is one.
fn add_block(
    alloc: Global,
    block: &Block,
    gone: &mut Vec<usize>,
    marks: &mut Vec<usize>,
    order: &mut Vec<usize>,
) -> Result<bool, AllocError> {
    let mut walk = Walk {
        ready: Vec::new(alloc),
        marked_puts: 0,
        marked_takes: 0,
        first_in: 0,
        first_out: 0,
    };
    for done in 0..block.by_put.len() {
        walk.look(block, gone.as_slice(), marks)?;
        let Some(number) = walk.ready.get(done).copied() else {
            return Ok(false);
        };
        crate::ranks::set(gone, number, 1);
        order.push(number)?;
    }
    Ok(true)
}

/// The values of each block: those that can be taken from a place up to the next moment only.
fn grouped(
    alloc: Global,
    items: &[Item],
    moments: &[usize],
) -> Result<Vec<(usize, usize)>, AllocError> {
    let mut pairs = Vec::with_capacity(alloc, items.len())?;
    for (number, item) in items.iter().enumerate() {
        pairs.push((count_below(moments, item.out_from()), number))?;
    }
    pairs.sort()?;
    Ok(pairs)
}

/// Entries, and the latest moments of the puts and the takes among them.
#[derive(Drop)]
struct Line {
    entries: Vec<Entry>,
    put: usize,
    take: usize,
}

impl Line {
    fn add(&mut self, place: usize, reply: Reply) -> Result<(), AllocError> {
        self.entries.push(Entry { place, reply })?;
        Ok(())
    }

    /// The moments of the puts and of the takes of some values, in turn.
    fn points(
        &mut self,
        alloc: Global,
        items: &[Item],
        numbers: &[usize],
    ) -> Result<Vec<(usize, usize)>, AllocError> {
        let mut points = Vec::with_capacity(alloc, numbers.len())?;
        for number in numbers {
            if let Some(item) = items.get(*number) {
                self.put = self.put.max(item.put.begin);
                self.take = self.take.max(item.out_from()).max(self.put);
                points.push((self.put, self.take))?;
            }
        }
        Ok(points)
    }

    /// The takes that come before a put at this moment.
    fn add_takes(
        &mut self,
        items: &[Item],
        numbers: &[usize],
        points: &[(usize, usize)],
        from: usize,
        before: usize,
    ) -> Result<usize, AllocError> {
        for place in from..points.len() {
            if points[place].1 >= before {
                return Ok(place);
            }
            if let Some(item) = items.get(at(numbers, place)) {
                if let Some(take) = item.take {
                    self.add(take.begin, Reply::Got(item.value))?;
                }
            }
        }
        Ok(points.len())
    }

    /// The calls on the values of a block.
    fn add_block(
        &mut self,
        alloc: Global,
        items: &[Item],
        numbers: &[usize],
    ) -> Result<(), AllocError> {
        let points = self.points(alloc, items, numbers)?;
        let mut taken = 0;
        for (place, number) in numbers.iter().enumerate() {
            let point = points.get(place).copied().unwrap_or((0, 0));
            taken = self.add_takes(items, numbers, &points, taken, point.0)?;
            if let Some(item) = items.get(*number) {
                self.add(item.put.begin, Reply::Done)?;
            }
        }
        self.add_takes(items, numbers, &points, taken, NEVER)?;
        Ok(())
    }

    /// The takes that found nothing at this moment.
    fn add_empties(
        &mut self,
        empties: &[(usize, usize)],
        from: usize,
        moment: usize,
    ) -> Result<usize, AllocError> {
        self.put = self.put.max(moment);
        self.take = self.take.max(moment);
        for number in from..empties.len() {
            let (at, place) = empties[number];
            if at != moment {
                return Ok(number);
            }
            self.add(place, Reply::Empty)?;
        }
        Ok(empties.len())
    }
}

/// Moments, each once.
pub(crate) fn once(alloc: Global, empties: &[(usize, usize)]) -> Result<Vec<usize>, AllocError> {
    let mut moments = keys(alloc, empties)?;
    moments.dedup();
    Ok(moments)
}

/// The numbers of the pairs from one place up to another.
fn numbers_of(
    alloc: Global,
    pairs: &[(usize, usize)],
    from: usize,
    to: usize,
) -> Result<Vec<usize>, AllocError> {
    let mut numbers = Vec::new(alloc);
    for place in from..to {
        numbers.push(pairs.get(place).copied().unwrap_or((0, 0)).1)?;
    }
    Ok(numbers)
}

/// The values on their way through the queue: which are gone, and how often each was marked; and the calls so far.
#[derive(Drop)]
struct Passage {
    gone: Vec<usize>,
    marks: Vec<usize>,
    line: Line,
}

impl Passage {
    fn begin(alloc: Global, count: usize) -> Result<Self, AllocError> {
        let line = Line {
            entries: Vec::new(alloc),
            put: 0,
            take: 0,
        };
        Ok(Passage {
            gone: copies(alloc, 0, count)?,
            marks: copies(alloc, 0, count)?,
            line,
        })
    }

    /// Lets the values of a block pass; whether all of them can.
    fn pass(
        &mut self,
        alloc: Global,
        items: &[Item],
        numbers: &[usize],
    ) -> Result<bool, AllocError> {
        let block = lists_of(alloc, items, numbers)?;
        let mut order = Vec::with_capacity(alloc, numbers.len())?;
        if !add_block(alloc, &block, &mut self.gone, &mut self.marks, &mut order)? {
            return Ok(false);
        }
        self.line.add_block(alloc, items, &order)?;
        Ok(true)
    }

    /// Lets all values pass, block by block, and behind each block the takes that found nothing at the next moment;
    /// whether all of them can.
    fn pass_all(
        &mut self,
        alloc: Global,
        items: &[Item],
        empties: &[(usize, usize)],
        moments: &[usize],
        pairs: &[(usize, usize)],
    ) -> Result<bool, AllocError> {
        let groups = keys(alloc, pairs)?;
        let mut from = 0;
        let mut answered = 0;
        for group in 0..moments.len().saturating_add(1) {
            let to = count_below(&groups, group.saturating_add(1));
            if !self.pass(alloc, items, &numbers_of(alloc, pairs, from, to)?)? {
                return Ok(false);
            }
            from = to;
            if let Some(moment) = moments.get(group) {
                answered = self.line.add_empties(empties, answered, *moment)?;
            }
        }
        Ok(true)
    }
}

/// An order of all calls that are known to have taken effect, if one is found.
pub(crate) fn ordered(
    alloc: Global,
    items: &[Item],
    empties: &[(usize, usize)],
) -> Result<Option<Vec<Entry>>, AllocError> {
    let moments = once(alloc, empties)?;
    let pairs = grouped(alloc, items, &moments)?;
    let mut passage = Passage::begin(alloc, items.len())?;
    if !passage.pass_all(alloc, items, empties, &moments, &pairs)? {
        return Ok(None);
    }
    Ok(Some(passage.line.entries))
}
