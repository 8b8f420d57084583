// What C calls of crates/dnscookie_find, under its name in include/dnscookie.h, in an archive of its own: LLVM lays the parser into its
// caller where there is only one.
#![tactic(auto)]

ghost use Rattle.std.specs.Prelude.{◌≡◌};
ghost use Rattle.dnscookie_find.specs.Find.{find_call};

#[unsafe(no_mangle)]
pub extern "C" fn dnscookie_find(message: &[u8]) -> u64
    ensures { result ≡ find_call message.now }
{
    dnscookie_find::dnscookie_find(message)
}
