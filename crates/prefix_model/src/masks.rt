// Laws of the masks of a node.
ghost use Rattle.prefix_model.specs.MaskLaws.{DataMaskTells, ChildMaskTells, MasksMeet, MasksFit};

/// A bit of a mask is set exactly where its place, or its child, passes the test; what two masks share passes both.
pub fn masks_tell_places()
    ensures places { DataMaskTells }
    ensures children { ChildMaskTells }
    ensures meet { MasksMeet }
    ensures fit { MasksFit }
{}
