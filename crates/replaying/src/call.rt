// The calls of a story.
use crate::figure::Figure;
use crate::words::Words;
use sheet::Placement;

// The most rows that are lent.
pub(crate) const MOST_ROWS: usize = 33;

// The largest work area.
pub(crate) const MOST_PLACES: usize = 512;

// What a call does. It is read from text, so it is an enum and no closure.
#[derive(Drop)]
pub(crate) enum Deed<N> {
    Blank,
    Place(Placement<N>),
    Lift(u32),
    Set(u32, N),
    // With that work area's length.
    Step(usize, N),
}

// A deed, and the length of the row table that is lent for it.
#[derive(Drop)]
pub(crate) struct Call<N> {
    pub(crate) rows: usize,
    pub(crate) deed: Deed<N>,
}

impl<N: Figure> Deed<N> {
    // The deed of that name, from the words after the rows.
    fn read(name: &[u8], words: &mut Words) -> Option<Deed<N>> {
        match name {
            b"blank" => Some(Deed::Blank),
            b"place" => Some(Deed::Place(read_placement(words)?)),
            b"lift" => Some(Deed::Lift(words.number()?)),
            b"set" => {
                let number = words.number()?;
                Some(Deed::Set(number, words.figure()?))
            }
            b"step" => {
                let area = words.length(MOST_PLACES)?;
                Some(Deed::Step(area, words.figure()?))
            }
            _ => None,
        }
    }

    pub(crate) fn is_step(&self) -> bool {
        matches!(self, Deed::Step(_, _))
    }
}

fn read_placement<N: Figure>(words: &mut Words) -> Option<Placement<N>> {
    let number = words.number()?;
    let kind = words.number()?;
    let tail = words.number()?;
    let head = words.number()?;
    let value = words.figure()?;
    let start = words.figure()?;
    Some(Placement {
        number,
        kind,
        tail,
        head,
        value,
        start,
    })
}

impl<N: Figure> Call<N> {
    // The call of a line.
    pub(crate) fn read(line: &[u8]) -> Option<Call<N>> {
        let mut words = Words::new(line);
        let name = words.word()?;
        let rows = words.length(MOST_ROWS)?;
        let deed = Deed::read(name, &mut words)?;
        words.end()?;
        Some(Call { rows, deed })
    }
}
