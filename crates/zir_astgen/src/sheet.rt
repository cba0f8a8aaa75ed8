// Lines as they are handed from part to part, and what is known of the parts written so far.
ghost use Rattle.zir_astgen.specs.Firsts.{Firsts};

use zir_form::{BlockRow, ContainerRow, DeclarationRow, Lines};

/// Lines, of which the first two are those for no form and for what is left out.
#[derive(Debug, Drop)]
pub struct Sheet {
    pub lines: Lines,
    ghost has_firsts: { Firsts lines },
}

/// The parts of a file so far, as rows that name lines.
#[derive(Debug, Drop)]
pub struct Rows {
    pub declarations: Vec<DeclarationRow>,
    pub containers: Vec<ContainerRow>,
    pub blocks: Vec<BlockRow>,
}

/// Lines, and rows that name some of them.
#[derive(Debug, Drop)]
pub struct Tables {
    pub sheet: Sheet,
    pub rows: Rows,
}

/// Lines with the line of a tree.
#[derive(Debug, Drop)]
pub struct Written {
    pub sheet: Sheet,
    pub line: u32,
}
