// The texts of a record of the tree fit the two bytes of their lengths, since those are what the record was read by: nothing is tested.
ghost use Rattle.std.specs.Prelude.{◌≡◌, true};
ghost use Rattle.definition.specs.Tree.{tree_at};
ghost use Rattle.definition.specs.Children.{AcceptedAt};
ghost use Rattle.definition.specs.Transform.{texts_fit};
ghost use Rattle.records.specs.Views.{rec_of};

use records::tree::Record;

fn fits_at(tree: &[u8], at: usize, levels: usize)
    requires { AcceptedAt levels tree.now at }
    ensures { texts_fit (tree_at levels tree.now at) ≡ true }
{}

pub fn fits(r: Record)
    ensures { texts_fit (rec_of r.entry) ≡ true }
{
    fits_at(r.tree, r.at, r.levels);
}
