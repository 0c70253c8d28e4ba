// Rows of changes, held against changes made in a plain way.
use crate::case::{Case, has_loads, is_as};
use crate::fault::hold;
use crate::trials::Trial;
use anyhow::anyhow;
use change::evening::prepare;
use change::kinds::Change;
use night::task::Task;
use oracle::draft::Draft;
use oracle::draw::Draw;
use oracle::edits::{Edit, Unmade, drawn, make};
use refusals::Numbered;
use sets::hours::Hours;

// No impl of From, since both types are of other crates.
fn change_of(edit: Edit) -> Change {
    match edit {
        Edit::Comes(job) => Change::Comes(Task {
            units: job.units,
            hours: Hours::from_bits(job.bits),
        }),
        Edit::Goes(j) => Change::Goes(j),
        Edit::More(j, units) => Change::More(j, units),
    }
}

// Draws a row of up to four changes, and makes them one by one; says which is the first that can't be made.
fn draw_row(
    draw: &mut Draw,
    after: &mut Draft,
    row: &mut Vec<Change>,
) -> anyhow::Result<Option<usize>> {
    let mut stopped = None;
    for i in 0..1 + draw.index(4) {
        let edit = drawn(draw, after);
        row.push(change_of(edit))?;
        if stopped.is_none() {
            match make(after, edit) {
                Ok(()) => {}
                Err(Unmade::Impossible) => stopped = Some(i),
                Err(Unmade::NoMemory) => return Err(anyhow!("memory allocation failed")),
            }
        }
    }
    Ok(stopped)
}

impl Trial {
    // Makes a row of changes in both ways, and plans the night as it is then anew.
    pub fn try_changes(&mut self, case: &Case) -> anyhow::Result<()> {
        let mut after = case.draft.clone()?;
        let mut row = Vec::new(self.heap);
        let stopped = draw_row(&mut self.draw, &mut after, &mut row)?;
        match (prepare(self.heap, &case.night, row.as_slice()), stopped) {
            (Ok(evening), None) => {
                hold(is_as(&evening.night, &after), "changes make another night")?;
                let anew = Case::new(self.heap, after)?;
                hold(
                    has_loads(&anew.paper, &evening.planned.levels.loads),
                    "loads after changes are not those of the night anew",
                )?;
                if anew.is_small() {
                    self.try_slow(&anew)?;
                }
                self.tally.rows.add();
                Ok(())
            }
            // by number and place, as people are told
            (Err(refusal), Some(i)) => {
                self.tally.refused.add();
                hold(
                    refusal.number() == 6 && refusal.place() == i,
                    "changes are refused in another way",
                )
            }
            _ => Err(anyhow!("changes are made, or refused, and should not be")),
        }
    }
}
