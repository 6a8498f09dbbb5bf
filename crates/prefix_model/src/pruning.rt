// Laws of what a removal takes from the kept positions of a table.
ghost use Rattle.prefix_model.specs.Pruning.{BareHasNoneBelow};

/// No position is kept right below another exactly where none is kept properly below it.
pub fn bare_nodes_have_none_below()
    ensures { BareHasNoneBelow }
{}
