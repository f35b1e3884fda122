//! Laws of the definitions, carried by functions that do nothing.

ghost use Rattle.time_text.specs.Laws.{DaysRise, DayIs, TimeTextIsRead, DayNameIsOfDay};

/// A later moment doesn't lie on an earlier day.
pub fn days_rise()
    ensures { DaysRise }
{}

/// Which moments a day has.
pub fn day_is()
    ensures { DayIs }
{}

/// The text of a moment has its shape, and is read as that moment.
pub fn time_text_is_read()
    ensures { TimeTextIsRead }
{}

/// The name of a day is that day's.
pub fn day_name_is_of_day()
    ensures { DayNameIsOfDay }
{}
