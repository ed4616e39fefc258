ghost use Rattle.std.specs.Prelude.{◌≡◌};
ghost use Rattle.sm_place.specs.Books.{IsKnown};
ghost use Rattle.sm_place.specs.ServerState.{is_leaving};
ghost use Rattle.sm_tasks.specs.Approvals.{full_domain};
ghost use Rattle.sm_tasks.specs.Domains.{domain_count, domain_down};

use sm_place::Books;
use sm_ranges::ServerId;

/// Returns the server's domain if, with the server, more of its servers would be leaving than its row allows.
pub(crate) fn full_domain(books: &Books, a: ServerId) -> Option<u16>
    requires { IsKnown books.now.servers a }
    ensures { result ≡ full_domain books.now a }
{
    let domain = books.row(a).domain;
    if leaving_in(books, domain) >= usize::from(domain_down(books, domain)) {
        Some(domain)
    } else {
        None
    }
}

// Returns how many servers of the domain are leaving.
fn leaving_in(books: &Books, domain: u16) -> usize
    ensures { result ≡ domain_count is_leaving books.now domain }
{
    books
        .rows()
        .iter()
        .zip(books.states().iter())
        .filter(|(row, state)| row.domain == domain && state.is_leaving())
        .count()
}

// Returns how many servers of the domain may be down.
fn domain_down(books: &Books, domain: u16) -> u16
    ensures { result ≡ domain_down books.now domain }
{
    match books.domains().iter().find(|row| row.domain == domain) {
        Some(row) => row.down,
        None => 0,
    }
}
