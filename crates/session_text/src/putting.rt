//! What a line puts into what was said: a thing that is said once.
ghost use Rattle.session_text.specs.Putting.{Puts, once};

/// Says a thing that wasn't said yet. Whether it wasn't.
pub fn once<T: Drop>(said: &mut Option<T>, value: T) -> bool
    ensures { Puts (once said.old value) said.new result }
{
    if said.is_some() {
        return false;
    }
    *said = Some(value);
    true
}
