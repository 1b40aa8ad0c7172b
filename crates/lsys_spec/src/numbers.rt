//! Laws of the numbers of symbols.

ghost use Rattle.lsys_spec.specs.NumbersOfSymbols.{SymbolsAreNumberedByTheirPlaces, SymbolsAreNumberedByTheirNames, InsertedSymbolsLeaveOtherNumbers};

/// By places the symbol at a place has this number. By names it has its code, and the number of the earlier symbols that
/// have the same one; what else stands before it doesn't matter.
pub fn law_of_numbers()
    ensures by_places { SymbolsAreNumberedByTheirPlaces }
    ensures by_names { SymbolsAreNumberedByTheirNames }
{}

/// Where a symbol is put into a list that has none of its code, the numbers by names of the others stay.
pub fn law_of_insertion()
    ensures { InsertedSymbolsLeaveOtherNumbers }
{}
