//! What holds of the format, whoever reads or writes it: the contract of a function that does nothing.
ghost use Rattle.std.specs.Prelude.{◌≡◌, ◌+◌, ◌<◌, ◌^◌, Some, true};
ghost use Rattle.wire_dns.specs.declared.message.Query.{Query};
ghost use Rattle.wire_dns.specs.Messages.{query_of};
ghost use Rattle.wire_dns.specs.Spelling.{is_name, query_text};

/// What `write_query` writes of a query, `read_query` reads as that query.
pub fn written_query_is_read_again()
    ensures { (q : Query) → is_name q.name ≡ true → q.id < 2 ^ 16 → q.kind < 2 ^ 16 → query_of (query_text q) ≡ Some q }
{}
