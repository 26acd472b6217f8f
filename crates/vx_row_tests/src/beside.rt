//! A row container beside a plain list of what its numbers stand for.
ghost use Rattle.std.specs.Prelude.{◌≡◌, [], ◌∷◌, IfOk};
ghost use Rattle.vx_value.specs.declared.value.Kind.TheVariants as kinds;
ghost use Rattle.vx_vector.specs.Batch.{kinds_of};

use std::alloc::{AllocError, Global};
use vx_rows::RowContainer;
use vx_value::{Kind, Txt, Value};
use vx_vector::{Batch, Vector};

/// Lengths of texts about the edges: of a slot, of one block and of the longest text.
const LENGTHS: [u16; 8] = [0, 12, 13, 40, 2_040, 2_041, 4_081, 65_535];

/// How many blocks texts of these lengths have: a block has room for 2,040 bytes at most.
const BLOCKS: [u64; 8] = [0, 0, 1, 1, 1, 2, 3, 33];

/// How many lengths there are.
const COUNT: u32 = 8;

/// The text of a roll's row.
fn words(alloc: Global, roll: u32) -> Result<String, AllocError> {
    let letter = if roll % 3 == 0 { "a" } else { "b" };
    letter.repeat(alloc, usize::from(LENGTHS[(roll % COUNT) as usize]))
}

/// The row of a roll: its number and its text.
fn row_of(alloc: Global, roll: u32) -> Result<Batch, AllocError>
    ensures kinds { IfOk result (λ batch. kinds_of batch.columns ≡ kinds.Int ∷ kinds.Text ∷ []) }
    ensures rows { IfOk result (λ batch. batch.rows ≡ 1) }
{
    let words = words(alloc, roll)?;
    if words.len() > 65_535 {
        return Err(AllocError);
    }
    let text = Value::Text(Txt::of(alloc, words.as_str().as_bytes())?);
    let first = Vector::constant(alloc, Kind::Int, &Value::Int(i64::from(roll)), 1)?;
    let second = Vector::constant(alloc, Kind::Text, &text, 1)?;
    let columns = Vec::from_array(alloc, [first, second])?;
    Ok(Batch { columns, rows: 1 })
}

/// A container, and beside it a plain list: the roll of each number's row.
#[derive(Drop)]
pub struct Beside {
    pub rows: RowContainer,
    plain: Vec<Option<u32>>,
    ghost kinds: { rows.kinds ≡ kinds.Int ∷ kinds.Text ∷ [] },
}

impl Beside {
    pub fn new(alloc: Global) -> Result<Beside, AllocError> {
        Ok(Beside {
            rows: RowContainer::new(alloc, &[Kind::Int, Kind::Text], &[])?,
            plain: Vec::new(alloc),
        })
    }

    /// Adds the row of a roll to both, and answers whether its number was free and the next one at most.
    pub fn add(&mut self, alloc: Global, roll: u32) -> Result<bool, AllocError> {
        let batch = row_of(alloc, roll)?;
        let number = self.rows.add(&batch, 0)? as usize;
        if number < self.plain.len() {
            let was_free = self.plain[number].is_none();
            self.plain[number] = Some(roll);
            return Ok(was_free);
        }
        let is_next = number == self.plain.len();
        self.plain.push(Some(roll))?;
        Ok(is_next)
    }

    /// Erases a number's row from both, and answers whether both had it or none.
    pub fn erase(&mut self, number: u32) -> bool {
        let is_live = self.rows.is_live(number);
        let place = number as usize;
        if place >= self.plain.len() {
            return !is_live;
        }
        if self.plain[place].is_none() {
            return !is_live;
        }
        if is_live {
            self.rows.erase(number);
            self.plain[place] = None;
        }
        is_live
    }

    /// Whether a number's row is that of the plain list.
    fn is_same(&self, alloc: Global, number: u32, roll: Option<u32>) -> Result<bool, AllocError> {
        let Some(roll) = roll else {
            return Ok(!self.rows.is_live(number));
        };
        if !self.rows.is_live(number) {
            return Ok(false);
        }
        let row = self.rows.get(alloc, number)?;
        let words = words(alloc, roll)?;
        match row.cells() {
            [Value::Int(n), Value::Text(text)] => Ok(
                *n == i64::from(roll) && text.as_bytes() == words.as_str().as_bytes(),
            ),
            _ => Ok(false),
        }
    }

    /// How many numbers have another row than in the plain list.
    pub fn differ(&self, alloc: Global) -> Result<u32, AllocError> {
        let (mut number, mut differ) = (0u32, 0u32);
        for roll in &self.plain {
            if !self.is_same(alloc, number, *roll)? {
                differ = differ.saturating_add(1);
            }
            number = number.saturating_add(1);
        }
        Ok(differ)
    }

    /// How many blocks the texts of the plain list have.
    pub fn blocks(&self) -> u64 {
        let mut blocks: u64 = 0;
        for roll in &self.plain {
            if let Some(roll) = roll {
                blocks = blocks.saturating_add(BLOCKS[(*roll % COUNT) as usize]);
            }
        }
        blocks
    }
}
