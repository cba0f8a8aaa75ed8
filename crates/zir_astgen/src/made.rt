// The line of a node, by its rule.
ghost use Rattle.std.specs.Prelude.{◌≡◌, ◌<◌, length, IfOk};
ghost use Rattle.zir_astgen.specs.Firsts.{Adds};
ghost use Rattle.zir_astgen.specs.Frames.{levels_of, FramesBelow};
ghost use Rattle.zir_astgen.specs.Parts.{first_tree};
ghost use Rattle.zir_astgen.specs.Pieces.{Below};
ghost use Rattle.zir_astgen.specs.Trees.{made_by};
ghost use Rattle.zir_astgen.specs.Writing.{file, parts, site, trees};

use crate::levels::Frames;
use crate::piece::Piece;
use crate::writer::Writer;
use std::alloc::AllocError;
use zig_tree::Rule;

impl Writer<'_> {
    /// What stands for a node alone in its row.
    #[tactic(auto, using(crate::proofs::AddLemmas::add_steps))]
    fn made_alone(&mut self, row: &[Piece]) -> Result<u32, AllocError>
        requires below { Below (length (trees self.old)) row.now }
        ensures tree { IfOk result (Adds (trees self.old) (trees self.new) (first_tree (parts self.old row.now))) }
        ensures source { self.new.source ≡ self.old.source }
    {
        Ok(self.first_line(row))
    }

    /// The line of a node of a rule, by the frames around its start and its end, and the pieces that it
    /// holds.
    #[tactic(auto, using(crate::proofs::AddLemmas::add_steps), unfolding(crate::specs::Trees::made_by))]
    pub fn made_by(
        &mut self,
        frames: &Frames<'_>,
        behind: &Frames<'_>,
        rule: Rule,
        row: &[Piece],
    ) -> Result<u32, AllocError>
        requires below { Below (length (trees self.old)) row.now }
        requires around { FramesBelow (length (trees self.old)) frames.now }
        requires past { FramesBelow (length (trees self.old)) behind.now }
        ensures tree { IfOk result (Adds (trees self.old) (trees self.new) (made_by (file self.old) (site self.old) (levels_of (trees self.old) frames.now) (levels_of (trees self.old) behind.now) rule (parts self.old row.now))) }
        ensures source { self.new.source ≡ self.old.source }
    {
        match rule {
            Rule::Root | Rule::Declaration | Rule::Function => Ok(self.missing()),
            Rule::Member | Rule::TypePrefix => self.made_alone(row),
            Rule::Field => self.made_field(row),
            Rule::Variable => self.made_variable(row),
            Rule::Prototype => self.made_prototype(row),
            Rule::Parameter => self.made_parameter(row),
            Rule::Block => self.block_line(behind, row),
            Rule::Statement => self.made_statement(row),
            Rule::Body => self.made_body(row),
            Rule::IfStatement | Rule::IfExpression => self.made_if(row),
            Rule::WhileStatement | Rule::WhileExpression => self.made_while(row),
            Rule::ForStatement | Rule::ForExpression => self.made_for(row),
            Rule::Rest | Rule::RestExpression => self.made_rest(row),
            Rule::ForArgument => self.made_for_argument(row),
            Rule::Captures => self.made_captures(row),
            Rule::Capture => self.made_capture(row),
            Rule::Name => self.made_name(row),
            Rule::Assignment => self.made_assignment(row),
            Rule::Or
            | Rule::And
            | Rule::Compare
            | Rule::Bit
            | Rule::Shift
            | Rule::Add
            | Rule::Multiply => self.made_chain(row),
            Rule::Prefix => self.prefix_line(frames, row),
            Rule::Primary => self.primary_line(frames, row),
            Rule::TypeExpression => self.made_type(row),
            Rule::Suffix => self.made_suffix(row),
            Rule::Atom => self.made_atom(row),
            Rule::Initializer => self.made_values(row),
            Rule::Container => self.made_container(row),
            Rule::ContainerBody => self.made_members(row),
            Rule::Switch => self.made_switch(row),
            Rule::Prong => self.made_prong(row),
            Rule::Item => self.made_item(row),
        }
    }
}
