//! Laws of maps, which are lists with their keys in order.

ghost use Rattle.boki_model.specs.MapLaws.{PutsOne, AnswersTellMaps};

/// What is put at a key is found there, other keys keep their values, and keys stay in order.
pub fn puts_one<V>()
    ensures { PutsOne V }
{}

/// Maps with their keys in order that answer alike are equal.
pub fn answers_tell_maps<V>()
    ensures { AnswersTellMaps V }
{}
