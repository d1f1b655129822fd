//! What holds for every connection: each law is the contract of a function that does nothing.
ghost use Rattle.std.specs.Prelude.{◌≡◌, true, None};
ghost use Rattle.efi_base.specs.declared.plain.Tick.{Tick};
ghost use Rattle.wire_l4.specs.Segment.{Segment};
ghost use Rattle.tcp_conn.specs.Connection.{Connection, is_closed};
ghost use Rattle.tcp_conn.specs.Segments.{after_segment};
ghost use Rattle.tcp_conn.specs.Calls.{after_tick};
ghost use Rattle.tcp_conn.specs.Owed.{segment_out, after_out};

/// Once a connection has ended, nothing goes, and nothing that is heard and no tick changes it.
pub fn ended_connections_are_silent()
    ensures sends { (c : Connection) → is_closed c.state ≡ true → segment_out c ≡ None }
    ensures stays { (c : Connection) → is_closed c.state ≡ true → after_out c ≡ c }
    ensures hears { (c : Connection) → (now : Tick) → (s : Segment) → is_closed c.state ≡ true → after_segment c now s ≡ c }
    ensures ticks { (c : Connection) → (now : Tick) → is_closed c.state ≡ true → after_tick c now ≡ c }
{}
