// A sheet as the trial holds it, and a plain checker of it.
use crate::bits::{has, ones};
use crate::bytes::{number, row_width, write};
use crate::cells::{Row, cell, item};
use crate::draft::Draft;
use crate::exact::Amounts;
use crate::slow::Level;
use std::alloc::{AllocError, Global};

// Why a sheet is refused.
#[derive(Clone, Copy, PartialEq, Eq)]
pub enum Wrong {
    // bytes end too early, at their length, or go on, at the first too many
    Length(usize),
    // the load of an hour isn't that of the amounts
    Load(usize),
    // a task's amounts don't add up, or its group is missing or has no hour
    Task(usize),
    // a task is done in the first hour, though less lies in the second, in which it may be done
    Uneven(usize, usize, usize),
}

// What a sheet says of a task.
#[derive(Clone, Copy)]
pub struct Share {
    pub group: u8,
    // 0 where the task may not be done
    pub amounts: Row,
}

#[derive(Drop)]
pub struct Paper {
    // the loads of the hours, as they stand
    pub loads: Vec<Level>,
    // the groups' hours
    pub groups: Vec<u128>,
    // by task
    pub shares: Vec<Share>,
}

// Reads one number after another.
#[derive(Drop)]
struct Reader<'a> {
    bytes: &'a [u8],
    at: usize,
}

impl Reader<'_> {
    // The next number of so many bytes, at most 8 of them.
    fn next(&mut self, width: usize) -> u64 {
        let at = self.at;
        self.at = at.saturating_add(width);
        (number(self.bytes, at, width) & 0xffff_ffff_ffff_ffff) as u64
    }

    // The next row of bits.
    fn row(&mut self, hours: usize) -> u128 {
        let at = self.at;
        self.at = at.saturating_add(row_width(hours));
        number(self.bytes, at, row_width(hours))
    }

    // What is said of a task with these hours.
    fn share(&mut self, bits: u128) -> Share {
        let group = (self.next(1) & 255) as u8;
        let mut amounts = [0; 96];
        for (s, x) in amounts.iter_mut().enumerate() {
            if has(bits, s) {
                *x = self.next(8);
            }
        }
        Share { group, amounts }
    }
}

impl Share {
    // Whether the amounts over a denominator add up to the units.
    fn is_whole(&self, units: u32, over: u8) -> bool {
        let sum = self
            .amounts
            .iter()
            .fold(0u128, |sum, x| sum.saturating_add(u128::from(*x)));
        over != 0 && sum == u128::from(units) * u128::from(over)
    }
}

impl Paper {
    pub fn empty(heap: Global) -> Paper {
        Paper {
            loads: Vec::new(heap),
            groups: Vec::new(heap),
            shares: Vec::new(heap),
        }
    }

    // What bytes say; where they end too early, as if zeros followed.
    pub fn read(heap: Global, draft: &Draft, bytes: &[u8]) -> Result<Paper, AllocError> {
        let mut paper = Paper::empty(heap);
        let mut reader = Reader { bytes, at: 0 };
        for _ in 0..draft.hours {
            let units = reader.next(8);
            paper.loads.push(Level {
                units,
                hours: reader.next(1),
            })?;
        }
        for _ in 0..reader.next(1) {
            paper.groups.push(reader.row(draft.hours))?;
        }
        for job in draft.jobs.iter() {
            paper.shares.push(reader.share(job.bits))?;
        }
        Ok(paper)
    }

    // The bytes of a sheet.
    pub fn written(&self, heap: Global, draft: &Draft) -> Result<Vec<u8>, AllocError> {
        let mut out = Vec::new(heap);
        for load in self.loads.iter() {
            write(&mut out, u128::from(load.units), 8)?;
            write(&mut out, u128::from(load.hours), 1)?;
        }
        write(&mut out, self.groups.len() as u128, 1)?;
        for bits in self.groups.iter() {
            write(&mut out, *bits, row_width(draft.hours))?;
        }
        for (j, job) in draft.jobs.iter().enumerate() {
            let share = self.share(j);
            out.push(share.group)?;
            for (s, x) in share.amounts.iter().enumerate() {
                if has(job.bits, s) {
                    write(&mut out, u128::from(*x), 8)?;
                }
            }
        }
        Ok(out)
    }

    // What is said of a task: its group is the first, and nothing is done, where nothing is said.
    fn share(&self, j: usize) -> Share {
        self.shares.get(j).copied().unwrap_or(Share {
            group: 0,
            amounts: [0; 96],
        })
    }

    // What is done of a task in an hour; none behind the last row. The rows stand one behind another: an hour from 96 on falls
    // into a later task's.
    pub(crate) fn amount(&self, j: usize, s: usize) -> Option<u64> {
        let at = cell(j, s);
        self.shares.get(at / 96)?.amounts.get(at % 96).copied()
    }

    // Adds to what is done of a task in an hour, and wraps around; to nothing behind the last row.
    pub(crate) fn add(&mut self, j: usize, s: usize, by: u64) {
        let at = cell(j, s);
        if let Some(share) = self.shares.get_mut(at / 96) {
            if let Some(x) = share.amounts.get_mut(at % 96) {
                *x = x.wrapping_add(by);
            }
        }
    }

    fn load(&self, s: usize) -> Level {
        self.loads
            .get(s)
            .copied()
            .unwrap_or(Level { units: 0, hours: 0 })
    }

    // The denominator of a task's amounts: that of the first hour of its group; 0 where there is none.
    // No Option: a sheet may say 0 itself, and either way there is no amount.
    pub fn over(&self, draft: &Draft, share: &Share) -> u8 {
        match self.groups.get(usize::from(share.group)) {
            Some(row) if *row & ones(draft.hours) != 0 => {
                (self.load(row.trailing_zeros() as usize).hours & 255) as u8
            }
            _ => 0,
        }
    }

    // The amounts in parts of a unit, of which each denominator divides the number.
    pub fn in_parts(
        &self,
        heap: Global,
        draft: &Draft,
        parts: u64,
    ) -> Result<Vec<Row>, AllocError> {
        let mut out = Vec::new(heap);
        // by number: of a task nothing may be said
        for j in 0..draft.jobs.len() {
            let share = self.share(j);
            let by = parts / u64::from(self.over(draft, &share)).max(1);
            out.push(share.amounts.map(|x| x.saturating_mul(by)))?;
        }
        Ok(out)
    }

    // Whether an hour's load is that of the amounts.
    fn is_loaded(&self, draft: &Draft, s: usize) -> bool {
        let mut lies = Amounts::NONE;
        for (j, share) in self.shares.iter().enumerate() {
            let amount = self.amount(j, s).unwrap_or(0);
            if amount > 0 {
                lies.add(amount, self.over(draft, share));
            }
        }
        let load = self.load(s);
        load.hours != 0 && lies.are(load.units, (load.hours & 255) as u8)
    }

    // The first hour of a set in which less lies than in this one.
    fn emptier(&self, bits: u128, s: usize) -> Option<usize> {
        let load = self.load(s);
        (0..96usize).find(|t| has(bits, *t) && self.load(*t).less(load))
    }

    // The first two hours of which the task is done in the one, though less lies in the other, in which it may be done.
    fn uneven(&self, bits: u128, share: &Share) -> Option<(usize, usize)> {
        for (s, x) in share.amounts.iter().enumerate() {
            if *x > 0 {
                if let Some(t) = self.emptier(bits, s) {
                    return Some((s, t));
                }
            }
        }
        None
    }

    // What is to be said of a sheet of the right length.
    fn verdict(&self, draft: &Draft) -> Result<(), Wrong> {
        for s in 0..draft.hours {
            if !self.is_loaded(draft, s) {
                return Err(Wrong::Load(s));
            }
        }
        for (j, (job, share)) in draft.jobs.iter().zip(self.shares.iter()).enumerate() {
            if !share.is_whole(job.units, self.over(draft, share)) {
                return Err(Wrong::Task(j));
            }
        }
        for (j, (job, share)) in draft.jobs.iter().zip(self.shares.iter()).enumerate() {
            if let Some((s, t)) = self.uneven(job.bits, share) {
                return Err(Wrong::Uneven(j, s, t));
            }
        }
        Ok(())
    }
}

// How many bytes a sheet has that begins as these bytes do.
fn length(draft: &Draft, bytes: &[u8]) -> usize {
    let head = draft.hours.saturating_mul(9);
    let rows = usize::from(item(bytes, head)).saturating_mul(row_width(draft.hours));
    let mut end = head.saturating_add(1).saturating_add(rows);
    for job in draft.jobs.iter() {
        end = end.saturating_add(1 + 8 * job.bits.count_ones() as usize);
    }
    end
}

// Why bytes are no sheet of the night, if they are none.
pub fn checked(heap: Global, draft: &Draft, bytes: &[u8]) -> Result<Result<(), Wrong>, AllocError> {
    let end = length(draft, bytes);
    if bytes.len() != end {
        return Ok(Err(Wrong::Length(bytes.len().min(end))));
    }
    Ok(Paper::read(heap, draft, bytes)?.verdict(draft))
}
