ghost use Rattle.ap_desc.specs.Descriptions as statements;
ghost use Rattle.ap_desc.specs.Reading.{ReadsAs};
ghost use Rattle.ap_top.specs.Additions.{IsAddition};
ghost use Rattle.ap_top.specs.Example.{ExampleRows, example_cards, example_form, example_operation, example_statements, example_text};
ghost use Rattle.ap_top.specs.Form.{IsFormDescription};

use ap_read::laws::descriptions_are_faultless;

/// What the lines of a small example say, and that they are a description.
pub fn example_reading()
    ensures reads { ReadsAs example_text example_statements }
    ensures description { statements.IsDescription example_statements }
{}

/// The example is a description of the first form, with the numbers that are read off it, where the shelf has a kind that
/// adds.
pub fn example_description()
    ensures addition { IsAddition example_cards 8 example_operation }
    ensures description { IsFormDescription example_cards example_text example_form }
{
    example_reading();
    descriptions_are_faultless();
}

/// The machine of a small example shows the rows that were worked out by hand.
pub fn example_rows()
    ensures { ExampleRows }
{}
