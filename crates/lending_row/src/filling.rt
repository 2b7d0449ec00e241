//! Values in slots: a slot for each, in their order.

ghost use Rattle.std.specs.Prelude.{◌≡◌, ◌≤◌, [], List, map, Some, vec_len, vec_capacity};

/// Moves the values into slots, in their order.
pub(crate) fn fill<T>(values: &mut Vec<T>, slots: &mut Vec<Option<T>>)
    requires none { slots.old.items ≡ [] }
    requires room { vec_len values.old ≤ vec_capacity slots.old }
    ensures slots { slots.new.items ≡ map Some values.old.items }
    ensures moved { values.new.items ≡ [] }
    ensures capacity { vec_capacity values.new ≡ vec_capacity values.old }
{
    values.reverse();
    while let Some(value) = values.pop() {
        slots.push_reserved(Some(value));
    }
}

/// Moves the values out of slots again, in their order, into a list that has room for them.
pub(crate) fn emptied<T>(mut slots: Vec<Option<T>>, mut into: Vec<T>) -> Vec<T>
    requires full { (values : List T) × (slots.items ≡ map Some values) }
    requires none { into.items ≡ [] }
    requires room { vec_len slots ≤ vec_capacity into }
    ensures { map Some result.items ≡ slots.items }
{
    while let Some(slot) = slots.pop() {
        match slot {
            Some(value) => into.push_reserved(value),
            None => unreachable!(),
        }
    }
    slots.destroy_empty();
    into.reverse();
    into
}
