ghost use Rattle.std.specs.Prelude.{◌≡◌};
ghost use Rattle.std.specs.Option.{option_map};
ghost use Rattle.stun_types.specs.Registered.{own_or as own_or_else};

/// The name that the library has for a number, and if it has none the registered one, if any.
pub(crate) fn own_or(own: &'static str, registered: Option<&'static str>) -> &'static str
    ensures { result.now ≡ own_or_else own.now (option_map (λ name. name.now) registered.entry) }
{
    if own == "unknown" {
        registered.unwrap_or(own)
    } else {
        own
    }
}
